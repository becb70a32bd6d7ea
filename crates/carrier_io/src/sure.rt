//! Devices that never fail.
ghost use Rattle.std.specs.Prelude.{◌≤◌, vec_len};

use crate::devices::{Sink, Source};
use crate::failures::Failed;

/// A source over bytes in memory that never fails.
#[derive(Drop)]
pub struct SureSource {
    bytes: Vec<u8>,
    at: usize,
    ghost within: { at ≤ vec_len bytes },
}

impl SureSource {
    ghost use Rattle.std.specs.Prelude.{◌≡◌, Some};
    ghost use Rattle.carrier_io.specs.Memory.{sure_left};

    /// A source over these bytes.
    pub fn new(bytes: Vec<u8>) -> SureSource
        ensures { sure_left result ≡ Some bytes.items }
    {
        SureSource { bytes, at: 0 }
    }
}

impl Source for SureSource {
    ghost use Rattle.std.specs.Prelude.{◌≡◌, length, min, Ok};
    ghost use Rattle.std.specs.Io.{ReadsAtMost};
    ghost use Rattle.std.specs.Io.KnownBytes.{ReadConsumes};
    ghost use Rattle.carrier_io.specs.Causes.{HasCause};
    ghost use Rattle.carrier_io.specs.Memory.{sure_left, sure_bytes};

    ghost left = { sure_left };

    ghost faults = { λ _. 0 };

    /// Gives as many bytes as fit and are left.
    fn read(&mut self, buf: &mut [u8]) -> Result<usize, Failed>
        ensures bound { ReadsAtMost result buf.new }
        ensures bytes { ReadConsumes (sure_left self.old) (sure_left self.new) result buf.new }
        ensures cause { HasCause 0 0 result }
        ensures all { result ≡ Ok (min (length buf.new) (length (sure_bytes self.old))) }
    {
        let count = buf.len().min(self.bytes.len() - self.at);
        buf[..count].copy_from_slice(&self.bytes[self.at..self.at + count]);
        self.at += count;
        Ok(count)
    }
}

/// A sink that keeps only how many bytes it took, and never fails.
#[derive(Drop)]
pub struct SureSink {
    taken: u64,
}

impl SureSink {
    ghost use Rattle.std.specs.Prelude.{◌≡◌};
    ghost use Rattle.carrier_io.specs.Memory.{taken_of};

    /// A sink that has taken nothing.
    pub fn new() -> SureSink
        ensures { taken_of result ≡ 0 }
    {
        SureSink { taken: 0 }
    }

    /// How many bytes it took; the count stays at the greatest u64.
    pub fn taken(&self) -> u64
        ensures { result ≡ taken_of self.now }
    {
        self.taken
    }
}

impl Sink for SureSink {
    ghost use Rattle.std.specs.Prelude.{◌≡◌, ◌<◌, length, take, IfOk, Ok, MatchResult};
    ghost use Rattle.std.specs.Io.{WritesAtMost};
    ghost use Rattle.std.specs.Io.KnownBytes.{Appends};
    ghost use Rattle.carrier_io.specs.Causes.{HasCause};
    ghost use Rattle.carrier_io.specs.Known.{AppendsFront};
    ghost use Rattle.carrier_io.specs.Memory.{taken_of, untold};
    ghost use Rattle.carrier_io.specs.Steps.{stepped};

    ghost held = { untold };

    ghost faults = { λ _. 0 };

    /// Takes the whole piece.
    fn write(&mut self, piece: &[u8]) -> Result<usize, Failed>
        ensures bound { WritesAtMost result piece.now }
        ensures progress { 0 < length piece.now → IfOk result (λ n. 0 < n) }
        ensures bytes { MatchResult result (λ n. Appends (untold self.old) (untold self.new) (take n piece.now))
            (λ _. AppendsFront (untold self.old) (untold self.new) piece.now) }
        ensures cause { HasCause 0 0 result }
        ensures all { result ≡ Ok (length piece.now) }
        ensures taken { taken_of self.new ≡ stepped (taken_of self.old) (length piece.now) }
    {
        self.taken = self.taken.saturating_add(piece.len() as u64);
        Ok(piece.len())
    }
}
