//! Texts of 8-bit characters in a tree, as texts of 16-bit units.
#![tactic(auto)]

mod conversion;
mod ends;
mod narrow;
mod pages;
mod properties;
mod singles;
mod texts;
mod trees;
mod values;

pub use conversion::{is_unicode, unicode_in_place, unicode_of};
pub use ends::{TextEnd, Unmapped, Why};
pub use pages::{Page, page_of};
