//! The OLE stores that attachments hold: read from a storage of a compound file, and written as one.
#![tactic(auto)]

mod reading;
mod whole;
mod writing;

pub use reading::read_store;
pub use whole::read_store_file;
pub use writing::{add_store, store_plan};
