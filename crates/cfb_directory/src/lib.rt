//! The directory of a compound file: its storages and streams.
#![tactic(auto)]

mod claiming;
mod families;
mod family;
mod files;
mod links;
mod lookups;
mod named;
mod names;
mod opening;
mod outline;
mod rising;
mod siblings;
mod spelled;
mod streams;
mod walk;
mod wanted;

pub use files::Files;
pub use lookups::{Child, StorageId};
pub use opening::open_files;
