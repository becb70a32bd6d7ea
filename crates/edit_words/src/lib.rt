//! The edits that words are.
#![tactic(auto)]

mod decimals;
mod edit_list;
mod edits;
mod keys;
mod places;
mod scripts;
mod values;
mod verbs;

pub use edit_list::Edits;
pub use edits::{Edit, Part, Place, Spot};
pub use scripts::read_edits;
