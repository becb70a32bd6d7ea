//! Texts of 8-bit characters in a tree and the texts of 16-bit units that they become, as plain lists and finite trees. The
//! definitions stand in specs/; each function here is a law about them and does nothing.
#![tactic(auto)]

mod text_laws;
mod text_rows;
mod tree_laws;

pub use text_laws::texts_are_exact;
pub use text_rows::{
    characters_of_utf_8, the_first_unmapped, the_page_of_a_message_in_another, the_page_of_a_text,
    units_of_pages,
};
pub use tree_laws::{converted_trees_are_exact, converted_trees_are_trees, one_or_the_other};
