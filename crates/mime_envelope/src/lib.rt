//! The mail envelope of a TNEF stream, both ways.
#![tactic(auto)]

mod body;
mod coder;
mod header;
mod laws;
mod marks;
mod parameters;
mod part;
mod parts;
mod reading;
mod search;
mod text;
mod writing;

pub use laws::envelopes_are_exact;
pub use reading::payload;
pub use writing::{Wrapped, envelope_size, write_envelope};
