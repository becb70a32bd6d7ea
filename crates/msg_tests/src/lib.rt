//! Tests of name maps, property lists and messages of .msg files, read and written: the crates that they are of are below,
//! and have none of their own.
#![tactic(auto)]

#[cfg(test)]
mod files;
#[cfg(test)]
mod messages;
#[cfg(test)]
mod name_maps;
#[cfg(test)]
mod properties;
