//! Parts of JSON texts as they are appended, and how long they are. [RFC 8259]
#![tactic(auto)]

mod appending;
mod buffers;
mod characters;
mod checking;
mod digits;
mod numbers;
mod plain;
mod texts;
mod utf16;

pub use appending::{append, separator};
pub use characters::append_string;
pub use digits::append_digits;
pub use numbers::append_number;
pub use texts::{append_name, append_text};
