//! Tests of compound files and stores, read and written: the crates that they are of are below, and have none of their own.
#![tactic(auto)]

#[cfg(test)]
mod directory;
#[cfg(test)]
mod files;
#[cfg(test)]
mod sectors;
#[cfg(test)]
mod store_plans;
#[cfg(test)]
mod stores;
#[cfg(test)]
mod writer;
