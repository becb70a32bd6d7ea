//! Messages in TNEF streams, read.
#![tactic(auto)]

mod contents;
mod drafts;
mod gifts;
mod held;
mod interfaces;
mod objects;
mod roles;
mod sections;
mod whole;

pub use held::Held;
pub use whole::read_tnef;
