//! Storages and streams listed for a compound file, and put in their order.
#![tactic(auto)]

mod content;
mod few_bytes;
mod laws;
mod list;
mod sorted;
mod sorting;
mod views;

pub use content::{Content, File};
pub use laws::{grown_lists_are_trees, sorted_lists_are_trees, sorted_lists_need_as_much};
pub use list::FileList;
pub use sorted::SortedList;
pub use views::{ContentView, FileView, KindView, NameView, numbered_units};
