//! Devices, blobs, number fields, lists and faults: what every layer stands on.
#![tactic(auto)]

mod blob;
mod compare;
mod copy;
mod devices;
mod failures;
mod gather;
mod holds;
mod memory;
mod number_fields;
mod numbers;
mod passed;
mod reasons;
mod std_devices;
mod summing;
mod sure;
mod units;
mod walk;
mod whole;

pub use blob::Blob;
pub use compare::same_bytes;
pub use copy::copy_bytes;
pub use devices::{Sink, Source};
pub use failures::{Failed, NoMemory, PlanEnd, ReadEnd};
pub use gather::{Writing, write_gathered};
pub use holds::Holds;
pub use memory::{MemorySink, MemorySource};
pub use number_fields::{le16, le32, le64, pad4, u16_at, u32_at, u64_at};
pub use numbers::Numbers;
pub use passed::{Passed, PassedList};
pub use reasons::{Fault, Reason, Stop};
pub use std_devices::{StdSink, StdSource};
pub use summing::{append, append_blob, append_zeros, sum_of};
pub use sure::{SureSink, SureSource};
pub use units::Units;
pub use walk::Walk;
pub use whole::{read_all, write_parts, write_pieces};
