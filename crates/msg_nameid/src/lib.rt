//! The name map of a .msg file: for which names the ids of its named properties stand. [MS-OXMSG 2.2.3]
#![tactic(auto)]

mod cyclic_sums;
mod drafts;
mod entry;
mod gathering;
mod hashes;
mod map;
mod order;
mod reading;
mod sets;
mod slots;
mod stream_names;
mod texts;
mod writing;

pub use map::NameMap;
pub use stream_names::{text_of, value_name};
