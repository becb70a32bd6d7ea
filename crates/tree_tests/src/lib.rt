//! Tests of what is told, changed, written as JSON and read of it: the crates that they are of are below, and have none
//! of their own.
#![tactic(auto)]

#[cfg(test)]
mod conversions;
#[cfg(test)]
mod edits;
#[cfg(test)]
mod from_json;
#[cfg(test)]
mod json_texts;
#[cfg(test)]
mod samples;
#[cfg(test)]
mod texts;
#[cfg(test)]
mod values;
#[cfg(test)]
mod words;
