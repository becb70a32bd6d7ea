//! Messages in .msg files, read and written. [MS-OXMSG 2.1 to 2.4]
#![tactic(auto)]

mod names;
mod numbers;
mod reading;
mod storages;
mod writing;

pub use reading::read_msg;
pub use writing::files_of;
