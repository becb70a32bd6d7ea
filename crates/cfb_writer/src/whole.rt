//! The whole file.
ghost use Rattle.std.specs.Prelude.{◌++◌};
ghost use Rattle.std.specs.List.{AllByRecursion};
ghost use Rattle.carrier_model.specs.Layout as layout;
ghost use Rattle.cfb_writer.specs.Laid.{slots_in, others_of, IsShort};
ghost use Rattle.cfb_layout.specs.Counts.{plan_seen, IsSmall};
ghost use Rattle.cfb_writer.specs.Numbered.{IsPlanFor};
ghost use Rattle.carrier_io.specs.Summed.{Sums};
ghost use Rattle.cfb_layout.specs.Versions.{sector_of};

use crate::directory::append_directory;
use crate::entries::Entries;
use crate::header::append_header;
use crate::streams::{Share, append_streams};
use crate::table::{append_difat, append_fat, append_mini_fat};
use carrier_io::{Blob, Failed, Sink, append_zeros};
use cfb_layout::{MINI_SECTOR, SectorCounts, Version};

/// Appends the header, the FAT and the DIFAT sectors.
fn append_tables<B: Blob, W: Sink>(
    sink: &mut W,
    version: Version,
    numbers: &SectorCounts,
    entries: &Entries<'_, B>,
) -> Result<u16, Failed>
    requires small { IsSmall numbers.now }
    requires plan { IsPlanFor (sector_of version) (plan_seen numbers.now) (slots_in entries.now) }
    ensures { Sums (W.held sink.old) (W.held sink.new) (W.faults sink.old) (W.faults sink.new) result (layout.header_bytes (sector_of version) (plan_seen numbers.now) ++ (layout.words_bytes (layout.table_of (sector_of version) (plan_seen numbers.now) (slots_in entries.now)) ++ layout.difat_bytes (sector_of version) (plan_seen numbers.now))) }
{
    let header = append_header(sink, version, numbers)?;
    let fat = append_fat(sink, version, numbers, entries)?;
    let difat = append_difat(sink, version, numbers)?;
    Ok(header.wrapping_add(fat.wrapping_add(difat)))
}

/// Appends the mini stream.
fn append_mini_stream<B: Blob, W: Sink>(
    sink: &mut W,
    version: Version,
    numbers: &SectorCounts,
    entries: &Entries<'_, B>,
) -> Result<u16, Failed>
    requires small { IsSmall numbers.now }
    requires plan { IsPlanFor (sector_of version) (plan_seen numbers.now) (slots_in entries.now) }
    ensures { Sums (W.held sink.old) (W.held sink.new) (W.faults sink.old) (W.faults sink.new) result (layout.mini_stream_bytes (sector_of version) (slots_in entries.now)) }
{
    let streams = append_streams(sink, entries, Share::Short, version, numbers.mini_sectors)?;
    let room = version.sector() * numbers.mini_stream as u64;
    let zeros = append_zeros(sink, room - MINI_SECTOR * numbers.mini_sectors as u64)?;
    Ok(streams.wrapping_add(zeros))
}

/// Appends the directory, the mini FAT and the streams.
fn append_files<B: Blob, W: Sink>(
    sink: &mut W,
    version: Version,
    numbers: &SectorCounts,
    entries: &Entries<'_, B>,
) -> Result<u16, Failed>
    requires small { IsSmall numbers.now }
    requires plan { IsPlanFor (sector_of version) (plan_seen numbers.now) (slots_in entries.now) }
    requires short { AllByRecursion IsShort (others_of entries.now) }
    ensures { Sums (W.held sink.old) (W.held sink.new) (W.faults sink.old) (W.faults sink.new) result (layout.directory_bytes (sector_of version) (plan_seen numbers.now) (slots_in entries.now) ++ (layout.words_bytes (layout.mini_table_of (sector_of version) (plan_seen numbers.now) (slots_in entries.now)) ++ (layout.mini_stream_bytes (sector_of version) (slots_in entries.now) ++ layout.long_bytes (sector_of version) (slots_in entries.now)))) }
{
    let directory = append_directory(sink, version, numbers, entries)?;
    let mini_fat = append_mini_fat(sink, version, numbers, entries)?;
    let mini = append_mini_stream(sink, version, numbers, entries)?;
    let long = append_streams(sink, entries, Share::Long, version, numbers.long)?;
    Ok(directory.wrapping_add(mini_fat.wrapping_add(mini.wrapping_add(long))))
}

/// Appends the whole file, and answers the sum of its bytes.
pub fn append_file<B: Blob, W: Sink>(
    sink: &mut W,
    version: Version,
    numbers: &SectorCounts,
    entries: &Entries<'_, B>,
) -> Result<u16, Failed>
    requires small { IsSmall numbers.now }
    requires plan { IsPlanFor (sector_of version) (plan_seen numbers.now) (slots_in entries.now) }
    requires short { AllByRecursion IsShort (others_of entries.now) }
    ensures { Sums (W.held sink.old) (W.held sink.new) (W.faults sink.old) (W.faults sink.new) result (layout.file_bytes (sector_of version) (plan_seen numbers.now) (slots_in entries.now)) }
{
    let tables = append_tables(sink, version, numbers, entries)?;
    let files = append_files(sink, version, numbers, entries)?;
    Ok(tables.wrapping_add(files))
}
