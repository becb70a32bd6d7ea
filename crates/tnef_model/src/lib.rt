//! What a TNEF stream means, and the one stream that a message is written as, as plain lists, numbers and finite trees. The
//! definitions stand in specs/; each function here is a law about them and does nothing.
#![tactic(auto)]

mod tnef_laws;
mod tnef_rows;

pub use tnef_laws::{
    attributes_are_exact, canonical_lists_mean_themselves, canonical_tnef_means_its_tree,
    property_lists_are_exact, recipient_lists_are_exact, tnef_carriers_are_trees,
    tnef_messages_are_exact,
};
pub use tnef_rows::{canonical_tnef_of_small_messages, the_length_with_a_store};
