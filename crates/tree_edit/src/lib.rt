//! The trees that edits make.
#![tactic(auto)]

mod chunked_list;
mod closing;
mod editing;
mod ends;
mod open_attachments;
mod open_messages;
mod open_props;
mod open_recipients;
mod prop_changes;
mod prop_lists;
mod whole;

pub use ends::{EditEnd, EditFault, EditWhy};
pub use whole::{edit_in_place, edited};
