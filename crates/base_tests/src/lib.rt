//! Tests of devices and blobs, names, values and trees: the crates that they are of are below, and have none of their own.
#![tactic(auto)]

#[cfg(test)]
mod devices;
#[cfg(test)]
mod halves;
#[cfg(test)]
mod names;
#[cfg(test)]
mod trees;
#[cfg(test)]
mod values;
