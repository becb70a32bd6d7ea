//! The canonical TNEF stream of a message, planned and written.
#![tactic(auto)]

mod plan;
mod planned;
mod planning;
mod write_attributes;
mod write_lists;
mod write_message;
mod write_objects;
mod write_sizes;

pub use plan::TnefPlan;
