//! How a command ends: the exit code, and the line of the report.
#![tactic(auto)]

mod report;
mod status;

pub use report::write_report;
pub use status::Status;
