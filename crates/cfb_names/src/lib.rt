//! Names of storages and streams in a compound file.
#![tactic(auto)]

mod order;
mod property_stream;

pub use order::sibling_order;
pub use property_stream::is_property_stream;
