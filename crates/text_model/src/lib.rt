//! The texts that tell a tree, and the trees that are made from a number, as plain lists and finite trees. The definitions
//! stand in specs/; each function here is a law about them and does nothing.
#![tactic(auto)]

mod text_rows;

pub use text_rows::{texts_of_one_property, the_text_of_a_message_with_parts, the_text_of_a_store};
