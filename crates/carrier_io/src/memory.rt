//! Devices over memory, that fail at the calls that they are told.
ghost use Rattle.std.specs.Prelude.{◌≡◌, ◌≤◌, ◌<◌, vec_len, vec_capacity};

use crate::devices::{Sink, Source};
use crate::failures::{Failed, NoMemory};
use std::alloc::Global;

/// A source over bytes in memory. Its calls are numbered from 0, and those in `failing` fail.
#[derive(Drop)]
pub struct MemorySource {
    bytes: Vec<u8>,
    at: usize,
    failing: Vec<u64>,
    calls: u64,
    faults: u64,
    ghost within: { at ≤ vec_len bytes },
}

impl MemorySource {
    ghost use Rattle.std.specs.Prelude.{◌≡◌, Some};
    ghost use Rattle.carrier_io.specs.Memory.{source_left, source_faults, source_call, source_failing};

    /// A source over these bytes, whose calls with the numbers in `failing` fail.
    pub fn new(bytes: Vec<u8>, failing: Vec<u64>) -> MemorySource
        ensures left { source_left result ≡ Some bytes.items }
        ensures call { source_call result ≡ 0 }
        ensures failing { source_failing result ≡ failing.items }
        ensures faults { source_faults result ≡ 0 }
    {
        MemorySource {
            bytes,
            at: 0,
            failing,
            calls: 0,
            faults: 0,
        }
    }
}

impl Source for MemorySource {
    ghost use Rattle.std.specs.Prelude.{◌≡◌, ◌↔◌, length, min, IfOk, MatchResult, Contains};
    ghost use Rattle.std.specs.Result.{IsErr};
    ghost use Rattle.std.specs.Io.{ReadsAtMost};
    ghost use Rattle.std.specs.Io.KnownBytes.{ReadConsumes};
    ghost use Rattle.carrier_io.specs.Causes.{HasCause};
    ghost use Rattle.carrier_io.specs.Steps.{stepped};
    ghost use Rattle.carrier_io.specs.Memory.{source_left, source_bytes, source_faults, source_call, source_failing};

    ghost left = { source_left };

    ghost faults = { source_faults };

    fn read(&mut self, buf: &mut [u8]) -> Result<usize, Failed>
        ensures bound { ReadsAtMost result buf.new }
        ensures bytes { ReadConsumes (source_left self.old) (source_left self.new) result buf.new }
        ensures cause { HasCause (source_faults self.old) (source_faults self.new) result }

        // It fails at the numbers that it was told, and nowhere else.
        ensures fails { IsErr result ↔ Contains (source_failing self.old) (source_call self.old) }
        ensures call { source_call self.new ≡ stepped (source_call self.old) 1 }
        ensures failing { source_failing self.new ≡ source_failing self.old }
        ensures count { MatchResult result (λ _. source_faults self.new ≡ source_faults self.old) (λ _. source_faults self.new ≡ stepped (source_faults self.old) 1) }
        ensures all { IfOk result (λ n. n ≡ min (length buf.new) (length (source_bytes self.old))) }
    {
        let call = self.calls;
        self.calls = call.saturating_add(1);
        if self.failing.contains(&call) {
            self.faults = self.faults.saturating_add(1);
            return Err(Failed);
        }
        let count = buf.len().min(self.bytes.len() - self.at);
        buf[..count].copy_from_slice(&self.bytes[self.at..self.at + count]);
        self.at += count;
        Ok(count)
    }
}

/// A sink in memory with room for so many bytes. Its calls are numbered from 0, and those in `failing` fail.
#[derive(Drop)]
pub struct MemorySink {
    bytes: Vec<u8>,
    room: usize,
    failing: Vec<u64>,
    calls: u64,
    faults: u64,
    ghost within: { vec_len bytes ≤ room },
    ghost capacity: { room ≤ vec_capacity bytes },
    ghost sure: { vec_len failing ≡ 0 → vec_len bytes < room → faults ≡ 0 },
}

impl MemorySink {
    ghost use Rattle.std.specs.Prelude.{◌≡◌, ◌<◌, Some, [], length, IfOk};
    ghost use Rattle.carrier_io.specs.Memory.{sink_held, sink_faults, sink_call, sink_failing, sink_room};

    /// Takes the memory for all that it can hold. NoMemory says that memory ran out.
    pub fn new(alloc: Global, room: usize, failing: Vec<u64>) -> Result<MemorySink, NoMemory>
        ensures held { IfOk result (λ s. sink_held s ≡ Some []) }
        ensures room { IfOk result (λ s. sink_room s ≡ room) }
        ensures call { IfOk result (λ s. sink_call s ≡ 0) }
        ensures failing { IfOk result (λ s. sink_failing s ≡ failing.items) }
        ensures faults { IfOk result (λ s. sink_faults s ≡ 0) }
    {
        let bytes = Vec::with_capacity(alloc, room)?;
        Ok(MemorySink {
            bytes,
            room,
            failing,
            calls: 0,
            faults: 0,
        })
    }

    /// What it holds.
    pub fn bytes(&self) -> &[u8]
        ensures held { sink_held self.now ≡ Some result.now }

        // Where no call is told to fail, no call failed so far, as long as fewer bytes are held than there is room for.
        ensures sure { sink_failing self.now ≡ [] → length result.now < sink_room self.now → sink_faults self.now ≡ 0 }
    {
        &self.bytes
    }

    /// What it held, to keep.
    pub fn into_bytes(self) -> Vec<u8>
        ensures { sink_held self ≡ Some result.items }
    {
        self.bytes
    }
}

impl Sink for MemorySink {
    ghost use Rattle.std.specs.Prelude.{◌≡◌, ◌⊎◌, ◌↔◌, ◌<◌, ◌-◌, length, take, min, IfOk, OnErr, MatchResult, Contains};
    ghost use Rattle.std.specs.Result.{IsErr};
    ghost use Rattle.std.specs.Io.{WritesAtMost};
    ghost use Rattle.std.specs.Io.KnownBytes.{Appends};
    ghost use Rattle.carrier_io.specs.Causes.{HasCause};
    ghost use Rattle.carrier_io.specs.Known.{AppendsFront};
    ghost use Rattle.carrier_io.specs.Steps.{stepped};
    ghost use Rattle.carrier_io.specs.Memory.{sink_held, sink_bytes, sink_faults, sink_call, sink_failing, sink_room};

    ghost held = { sink_held };

    ghost faults = { sink_faults };

    fn write(&mut self, piece: &[u8]) -> Result<usize, Failed>
        ensures bound { WritesAtMost result piece.now }
        ensures progress { 0 < length piece.now → IfOk result (λ n. 0 < n) }
        ensures bytes { MatchResult result (λ n. Appends (sink_held self.old) (sink_held self.new) (take n piece.now))
            (λ _. AppendsFront (sink_held self.old) (sink_held self.new) piece.now) }
        ensures cause { HasCause (sink_faults self.old) (sink_faults self.new) result }

        // It fails at the numbers that it was told and where it is full, and nowhere else.
        ensures fails { IsErr result ↔ (Contains (sink_failing self.old) (sink_call self.old) ⊎ ((sink_room self.old ≡ length (sink_bytes self.old)) × (0 < length piece.now))) }
        ensures nothing { OnErr result (sink_held self.new ≡ sink_held self.old) }
        ensures all { IfOk result (λ n. n ≡ min (length piece.now) (sink_room self.old - length (sink_bytes self.old))) }
        ensures call { sink_call self.new ≡ stepped (sink_call self.old) 1 }
        ensures failing { sink_failing self.new ≡ sink_failing self.old }
        ensures room { sink_room self.new ≡ sink_room self.old }
        ensures count { MatchResult result (λ _. sink_faults self.new ≡ sink_faults self.old) (λ _. sink_faults self.new ≡ stepped (sink_faults self.old) 1) }
    {
        let call = self.calls;
        self.calls = call.saturating_add(1);
        if self.failing.contains(&call) {
            self.faults = self.faults.saturating_add(1);
            return Err(Failed);
        }
        let count = piece.len().min(self.room - self.bytes.len());
        if count == 0 && !piece.is_empty() {
            self.faults = self.faults.saturating_add(1);
            return Err(Failed);
        }
        let done = self.bytes.extend_from_slice(&piece[..count]);
        done.unwrap();
        Ok(count)
    }
}
