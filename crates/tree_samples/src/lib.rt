//! Trees made from a number, with something of each sort.
#![tactic(auto)]

mod levels;
mod parts;
mod small_props;
mod sorted;
mod whole;

pub use whole::sample;
