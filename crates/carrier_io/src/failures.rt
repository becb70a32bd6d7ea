//! Why a call of a device, a reader or a plan gave up.
ghost use Rattle.std.specs.Prelude.{◌≡◌};
ghost use Rattle.carrier_io.specs.declared.failures.ReadEnd.TheVariants as ends;
ghost use Rattle.carrier_io.specs.declared.failures.PlanEnd.TheVariants as plan_ends;

use std::alloc::{AllocError, AllocFailed};
use thiserror::Error;

/// A device failed.
#[derive(Clone, Copy, Debug, PartialEq, Eq, Error)]
#[error("the device failed")]
pub struct Failed;

/// Memory was refused. No call ties it to a cause.
#[derive(Clone, Copy, Debug, PartialEq, Eq, Error)]
#[error("out of memory")]
pub struct NoMemory;

impl From<AllocError> for NoMemory {
    fn from(_: AllocError) -> NoMemory {
        NoMemory
    }
}

impl<T: Drop> From<AllocFailed<T>> for NoMemory {
    fn from(_: AllocFailed<T>) -> NoMemory {
        NoMemory
    }
}

/// Why a source was not read to its end.
#[derive(Clone, Copy, Debug, PartialEq, Eq)]
pub enum ReadEnd {
    /// The source failed.
    ReadFault,
    /// It gave more bytes than the limit.
    TooLong,
    /// Memory was refused.
    NoMemory,
}

impl From<AllocError> for ReadEnd {
    ghost from_gives = { λ _ e. e ≡ ends.NoMemory };

    fn from(_: AllocError) -> ReadEnd {
        ReadEnd::NoMemory
    }
}

impl From<Failed> for ReadEnd {
    ghost from_gives = { λ _ e. e ≡ ends.ReadFault };

    fn from(_: Failed) -> ReadEnd {
        ReadEnd::ReadFault
    }
}

/// Why there is no plan of an output.
#[derive(Clone, Copy, Debug, PartialEq, Eq)]
pub enum PlanEnd {
    /// The output would have so many bytes, which is above the limit.
    TooLarge(u64),
    /// Memory was refused.
    NoMemory,
}

impl From<NoMemory> for PlanEnd {
    ghost from_gives = { λ _ e. e ≡ plan_ends.NoMemory };

    fn from(_: NoMemory) -> PlanEnd {
        PlanEnd::NoMemory
    }
}
