//! The attributes of a TNEF stream, read and written.
#![tactic(auto)]

mod attributes;
mod classes;
pub mod ids;
mod legacy;
mod moments;
mod reading;
mod sums;
mod writing;

pub use attributes::{Attribute, Attributes};
pub use legacy::legacy_prop;
pub use sums::sum16;
pub use writing::{attribute_head, write_attribute};
