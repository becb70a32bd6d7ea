//! A tree as a JSON text.
#![tactic(auto)]

mod json_text;
mod paths;
mod write_messages;
mod write_parts;
mod write_props;
mod write_stores;

pub use json_text::{JsonText, json_length, json_of};
