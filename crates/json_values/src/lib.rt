//! JSON values that borrow their texts, seen as the plain data of `serde_json`: what a text is read as, and what is in a
//! value.
#![tactic(auto)]

mod numbers;
mod parts;
mod reading;
mod texts;
mod value;

pub use parts::{as_items, as_str, as_u64, get, has_only, is_number};
pub use texts::{TextEnd, parse};
pub use value::{Boxed, Value, unboxed};
