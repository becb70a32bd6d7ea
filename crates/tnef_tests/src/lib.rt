//! Tests of TNEF streams, read and written: the crates that they are of are below, and have none of their own.
#![tactic(auto)]

#[cfg(test)]
mod attributes;
#[cfg(test)]
mod lists;
#[cfg(test)]
mod reading;
#[cfg(test)]
mod writing;
