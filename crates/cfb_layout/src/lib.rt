//! What a compound file is laid out by: versions, sizes, how many sectors each part has, and the links of siblings.
#![tactic(auto)]

mod links;
mod numbers;
mod sizes;
mod version;

pub use links::{NO_STREAM, append_links, top_of};
pub use numbers::SectorCounts;
pub use sizes::{CUTOFF, ENTRY, HEADER, HEADER_DIFAT, MINI_SECTOR, WORD};
pub use version::Version;
