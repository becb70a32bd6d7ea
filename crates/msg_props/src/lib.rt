//! Property lists of .msg files, read and written. [MS-OXMSG 2.4]
#![tactic(auto)]

mod elements;
mod entries;
mod items;
mod lengths;
mod lists;
mod reading;
mod single_numbers;
mod stored;
mod stream_names;
mod tags;
mod values;
mod write_entries;
mod write_streams;
mod write_tags;
mod write_values;
mod writing;

pub use lists::PROPERTIES;
pub use reading::{Section, read_props};
pub use writing::{Head, add_props};
