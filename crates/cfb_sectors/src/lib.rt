//! The sectors of a compound file: its header, its tables, its chains, and its streams as views of the input.
#![tactic(auto)]

mod chains;
mod claims;
mod entry;
mod fat;
pub mod fields;
mod following;
mod header;
mod lists;
mod loading;
mod marks;
mod mini;
mod offset;
mod sectors;
mod streams;
mod view;
mod words;

pub use entry::Entry;
pub use fat::Fat;
pub use marks::SectorMarks;
pub use offset::file_offset;
pub use sectors::Sectors;
pub use view::StreamView;
