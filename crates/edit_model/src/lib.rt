//! Edits of messages, as plain lists, numbers and finite trees: what they make, which of them can't be done, and the words
//! that they are. The definitions stand in specs/; each function here is a law about them and does nothing.
#![tactic(auto)]

mod edit_laws;
mod edit_rows;

pub use edit_laws::{edited_trees_are_trees, edits_are_exact, edits_of_words_are_edits};
pub use edit_rows::{edits_that_are_done, edits_that_cannot_be_done, words_that_are_no_edits};
