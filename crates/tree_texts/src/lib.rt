//! The texts that tell a tree: every property of every message, or how much there is.
#![tactic(auto)]

mod check;
mod elements;
mod lines;
mod numbers;
mod props;
mod quoted;
mod show;
mod store_totals;
mod values;

pub use check::{CheckText, TreeCarrier, write_check, write_counts};
pub use lines::{write_count, write_counted, write_size};
pub use numbers::write_slashed;
pub use show::{ShowText, write_show};
