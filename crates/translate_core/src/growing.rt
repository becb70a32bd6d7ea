//! A sink in memory that grows.

use carrier_io::{Failed, Sink};
use std::alloc::Global;

/// Bytes in memory, of which nobody knows how many they will be. A call fails where memory is refused.
#[derive(Drop)]
pub(crate) struct Growing {
    pub(crate) bytes: Vec<u8>,
    refusals: u64,
}

impl Growing {
    ghost use Rattle.std.specs.Prelude.{◌≡◌, Some, []};
    ghost use Rattle.translate_core.specs.Trips.{growing_held};

    /// No bytes.
    pub(crate) fn new(alloc: Global) -> Growing
        ensures { growing_held result ≡ Some [] }
    {
        Growing {
            bytes: Vec::new(alloc),
            refusals: 0,
        }
    }
}

impl Sink for Growing {
    ghost use Rattle.translate_core.specs.Trips.{growing_held, growing_refusals};

    ghost held = { growing_held };

    ghost faults = { growing_refusals };

    /// Takes the whole piece.
    fn write(&mut self, piece: &[u8]) -> Result<usize, Failed> {
        match self.bytes.extend_from_slice(piece) {
            Ok(()) => Ok(piece.len()),
            Err(_) => {
                self.refusals = self.refusals.saturating_add(1);
                Err(Failed)
            }
        }
    }
}
