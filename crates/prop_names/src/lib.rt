//! GUIDs, names and keys of properties.
#![tactic(auto)]

pub mod digits;
pub mod hex_digits;
pub mod key_texts;
pub mod keys;
pub mod labels;
pub mod name_set;
pub mod names;
pub mod number_texts;
pub mod units;

pub use digits::{lower_digits2, upper_digits2, upper_digits4, upper_digits8, upper_digits16};
pub use hex_digits::{bytes_of_digits, guid_of_digits, number_of_eight, number_of_four};
pub use key_texts::{print_guid, print_key, print_unit};
pub use keys::{FIRST_NAMED, Key};
pub use labels::set_label;
pub use name_set::NameSet;
pub use names::{Guid, Name, TextName};
pub use number_texts::write_decimal;
pub use units::units_of_bytes;
