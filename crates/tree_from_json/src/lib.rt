//! The tree of a JSON text.
#![tactic(auto)]

mod entries;
mod read_digits;
mod read_ends;
mod read_entries;
mod read_keys;
mod read_kinds;
mod read_lists;
mod read_messages;
mod read_parts;
mod read_props;
mod read_stores;
mod read_texts;
mod read_trees;
mod read_values;

pub use read_ends::{JsonEnd, JsonFault, JsonWhy};
pub use read_trees::tree_of;
