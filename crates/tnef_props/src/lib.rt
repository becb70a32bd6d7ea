//! Property lists of a TNEF stream.
#![tactic(auto)]

mod fields;
mod items;
mod list;
mod names;
mod object;
mod object_places;
mod ranges;
mod rest;
mod short;
mod sizes;
mod texts;
mod values;
mod writing_keys;
mod writing_values;

pub use list::read_list;
pub use object::{Object, ReadList};
pub use object_places::object_place;
pub use ranges::{append_range, range_sum, write_range};
pub use sizes::list_size;
