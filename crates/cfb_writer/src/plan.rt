//! A compound file, planned and written.
use crate::entries::Entries;
use crate::parts::measured;
use crate::plan_entries::entries_of;
use crate::totals::all_totals;
use crate::whole::append_file;
use carrier_io::{Blob, Failed, PlanEnd, Sink, SureSink, Writing};
use cfb_layout::{SectorCounts, Version};
use cfb_list::{FileList, sorted_lists_are_trees, sorted_lists_need_as_much};
use std::alloc::Global;
use std::marker::Model;

/// What will be written for a list. It keeps the list, and holds no output. [MS-CFB 2.1]
#[derive(Drop)]
pub struct Plan<'t, B: Blob> {
    version: Version,
    numbers: SectorCounts,
    entries: Entries<'t, B>,
    size: u64,
}

impl<'t, B: Blob> Model for Plan<'t, B> {
    ghost use Rattle.std.specs.Prelude.{List, ℕ};
    ghost use Rattle.carrier_model.specs.Layout.{file_bytes};
    ghost use Rattle.cfb_writer.specs.Laid.{slots_in};
    ghost use Rattle.cfb_layout.specs.Counts.{plan_seen};
    ghost use Rattle.cfb_writer.specs.PlanKept.{IsPlanned};
    ghost use Rattle.cfb_layout.specs.Versions.{sector_of};

    ghost Value = { List ℕ };

    ghost view = { λ s. file_bytes (sector_of s.version) (plan_seen s.numbers) (slots_in s.entries) };

    ghost invariant = { λ s. IsPlanned (sector_of s.version) s.numbers s.entries s.size };
}

impl<'t, B: Blob> Plan<'t, B> {
    ghost use Rattle.std.specs.Prelude.{◌≡◌, ◌≤◌, length, IfOk, IfErr};
    ghost use Rattle.carrier_model.specs.Bytes.{MOST_BYTES};
    ghost use Rattle.cfb_list.specs.Listed.{tree_of};
    ghost use Rattle.cfb_writer.specs.Planned.{layout_of};
    ghost use Rattle.cfb_writer.specs.PlanEnds.{IsEndOf};
    ghost use Rattle.carrier_io.specs.Known.{Writes};
    ghost use Rattle.carrier_io.specs.Summed.{Sums};
    ghost use Rattle.carrier_model.specs.Bytes.{sum16};
    ghost use Rattle.carrier_model.specs.Layout.{file_bytes};
    ghost use Rattle.cfb_writer.specs.Laid.{slots_in};
    ghost use Rattle.cfb_layout.specs.Counts.{plan_seen};
    ghost use Rattle.cfb_writer.specs.PlanKept.{IsPlanned};
    ghost use Rattle.cfb_layout.specs.Versions.{sector_of};

    /// A plan of entries, whose parts have so many sectors.
    pub(crate) fn of_parts(
        version: Version,
        numbers: SectorCounts,
        entries: Entries<'t, B>,
        size: u64,
    ) -> Plan<'t, B>
        requires { IsPlanned (sector_of version) numbers entries size }
        ensures { result ≡ file_bytes (sector_of version) (plan_seen numbers) (slots_in entries.entry) }
    {
        Plan {
            version,
            numbers,
            entries,
            size,
        }
    }

    /// A plan of a list, for sectors of 512 or 4,096 bytes. TooLarge says that its file has more than 268,435,456 bytes,
    /// and how many; a number above the greatest `u64` stays there. NoMemory says that memory ran out.
    pub fn new(
        alloc: Global,
        version: Version,
        files: FileList<'t, B>,
    ) -> Result<Plan<'t, B>, PlanEnd>
        ensures ok { IfOk result (λ p. p ≡ layout_of (sector_of version) files.entry.root_class (tree_of files.entry.storages)) }
        ensures fits { IfOk result (λ p. length p ≤ MOST_BYTES) }
        ensures end { IfErr result (IsEndOf (layout_of (sector_of version) files.entry.root_class (tree_of files.entry.storages))) }
    {
        sorted_lists_are_trees();
        sorted_lists_need_as_much();
        let root_class = files.root_class();
        let totals = all_totals(alloc, version, &files)?;
        let measure = match measured(version, totals[0]) {
            Ok(measure) => measure,
            Err(size) => return Err(PlanEnd::TooLarge(size)),
        };
        let entries = entries_of(alloc, root_class, files.sorted()?, &totals)?;
        Ok(Plan::of_parts(version, measure.numbers, entries, measure.size))
    }

    /// How many bytes are written: all sectors, with the header. [MS-CFB 2.2]
    pub fn size(&self) -> u64
        ensures { result ≡ length self.now }
    {
        self.size
    }

    /// Appends the file, and answers the sum of its bytes modulo 65,536. It takes no memory. Failed says that the sink
    /// failed; then a front of the file may stand there. [MS-CFB 2.1, MS-OXTNEF 2.1.3]
    pub fn append<W: Sink>(&self, sink: &mut W) -> Result<u16, Failed>
        ensures { Sums (W.held sink.old) (W.held sink.new) (W.faults sink.old) (W.faults sink.new) result self.now }
    {
        append_file(sink, self.version, &self.numbers, &self.entries)
    }

    /// Appends the file. It takes no memory. Failed says that the sink failed; then a front of the file may stand
    /// there. [MS-CFB 2.1]
    pub fn write<W: Sink>(&self, sink: &mut W) -> Result<(), Failed>
        ensures { Writes (W.held sink.old) (W.held sink.new) (W.faults sink.old) (W.faults sink.new) result self.now }
    {
        match self.append(sink) {
            Ok(_) => Ok(()),
            Err(failed) => Err(failed),
        }
    }

    /// The sum of the bytes modulo 65,536, as it stands behind an attribute of a TNEF stream. [MS-OXTNEF 2.1.3]
    pub fn sum(&self) -> u16
        ensures { result ≡ sum16 self.now }
    {
        let mut sink = SureSink::new();
        match self.append(&mut sink) {
            Ok(sum) => sum,
            Err(_) => unreachable!(),
        }
    }
}

impl<'t, B: Blob> Writing for Plan<'t, B> {
    ghost text = { λ p. p };

    fn write_to<W: Sink>(&self, sink: &mut W) -> Result<(), Failed> {
        self.write(sink)
    }
}
