//! Messages as JSON, as plain data: the value of a message, what a value means, and the first fault of one that means
//! nothing. The definitions stand in specs/; each function here is a law about them and does nothing.
#![tactic(auto)]

mod json_laws;
mod json_rows;

pub use json_laws::{
    meant_trees_are_trees, texts_are_exact, values_are_exact, values_are_shallow,
    values_have_no_floats, values_mean_their_tree,
};
pub use json_rows::{faults_in_print, faults_of_changed_values, the_json_of_one_property};
