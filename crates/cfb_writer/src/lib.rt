//! Compound files, planned and written.
#![tactic(auto)]

mod appending;
mod directory;
mod entries;
mod fat_count;
mod header;
mod laws;
mod parts;
mod placing;
mod plan;
mod plan_entries;
mod runs;
mod streams;
mod table;
mod totals;
mod whole;

pub use cfb_layout::Version;
pub use cfb_list::{Content, FileList};
pub use laws::sorted_lists_are_laid_out;
pub use plan::Plan;
