//! The FAT, the mini FAT, and the DIFAT sectors.
ghost use Rattle.std.specs.Prelude.{◌≡◌, ◌<◌};
ghost use Rattle.carrier_model.specs.Layout as layout;
ghost use Rattle.cfb_writer.specs.Laid.{slots_in};
ghost use Rattle.cfb_layout.specs.Counts.{plan_seen, IsSmall};
ghost use Rattle.cfb_writer.specs.Numbered.{front_words, next_list, IsPlanFor};
ghost use Rattle.carrier_io.specs.Summed.{Sums};
ghost use Rattle.cfb_layout.specs.Versions.{sector_of};

use crate::entries::Entries;
use crate::runs::{END_OF_CHAIN, FREE_SECTOR, Run, append_run, append_runs};
use crate::streams::{Share, append_chains};
use carrier_io::{Blob, Failed, Sink};
use cfb_layout::{HEADER_DIFAT, SectorCounts, Version};

/// The word of a sector of the FAT. [MS-CFB 2.1]
const FAT_SECTOR: u32 = 0xFFFF_FFFD;

/// The word of a DIFAT sector. [MS-CFB 2.1]
const DIFAT_SECTOR: u32 = 0xFFFF_FFFC;

/// Appends the words of all parts before the streams with sectors of their own.
fn append_fronts<W: Sink>(sink: &mut W, numbers: &SectorCounts) -> Result<u16, Failed>
    requires { IsSmall numbers.now }
    ensures { Sums (W.held sink.old) (W.held sink.new) (W.faults sink.old) (W.faults sink.new) result (layout.words_bytes (front_words (plan_seen numbers.now))) }
{
    append_runs(
        sink,
        &[
            (Run::Same(FAT_SECTOR), numbers.fat),
            (Run::Same(DIFAT_SECTOR), numbers.difat),
            (Run::Chain(numbers.directory_start()), numbers.directory),
            (Run::Chain(numbers.mini_fat_start()), numbers.mini_fat),
            (Run::Chain(numbers.mini_stream_start()), numbers.mini_stream),
        ],
    )
}

/// Appends the FAT. [MS-CFB 2.3]
pub fn append_fat<B: Blob, W: Sink>(
    sink: &mut W,
    version: Version,
    numbers: &SectorCounts,
    entries: &Entries<'_, B>,
) -> Result<u16, Failed>
    requires small { IsSmall numbers.now }
    requires plan { IsPlanFor (sector_of version) (plan_seen numbers.now) (slots_in entries.now) }
    ensures { Sums (W.held sink.old) (W.held sink.new) (W.faults sink.old) (W.faults sink.new) result (layout.words_bytes (layout.table_of (sector_of version) (plan_seen numbers.now) (slots_in entries.now))) }
{
    let fronts = append_fronts(sink, numbers)?;
    let chains = append_chains(
        sink,
        entries,
        Share::Long,
        version,
        numbers.long_start(),
        numbers.long,
    )?;
    let words = version.words() as u32 * numbers.fat;
    let free = append_run(
        sink,
        Run::Same(FREE_SECTOR),
        words - (numbers.long_start() + numbers.long),
    )?;
    Ok(fronts.wrapping_add(chains.wrapping_add(free)))
}

/// Appends the mini FAT. [MS-CFB 2.4]
pub fn append_mini_fat<B: Blob, W: Sink>(
    sink: &mut W,
    version: Version,
    numbers: &SectorCounts,
    entries: &Entries<'_, B>,
) -> Result<u16, Failed>
    requires small { IsSmall numbers.now }
    requires plan { IsPlanFor (sector_of version) (plan_seen numbers.now) (slots_in entries.now) }
    ensures { Sums (W.held sink.old) (W.held sink.new) (W.faults sink.old) (W.faults sink.new) result (layout.words_bytes (layout.mini_table_of (sector_of version) (plan_seen numbers.now) (slots_in entries.now))) }
{
    let chains = append_chains(
        sink,
        entries,
        Share::Short,
        version,
        0,
        numbers.mini_sectors,
    )?;
    let words = version.words() as u32 * numbers.mini_fat;
    let free = append_run(sink, Run::Same(FREE_SECTOR), words - numbers.mini_sectors)?;
    Ok(chains.wrapping_add(free))
}

/// The word that names the DIFAT sector behind the k-th.
fn difat_behind(numbers: &SectorCounts, k: u32) -> u32
    requires small { IsSmall numbers.now }
    requires place { k < numbers.now.difat }
    ensures { result ≡ next_list (plan_seen numbers.now) k }
{
    if k + 1 == numbers.difat {
        END_OF_CHAIN
    } else {
        numbers.fat + k + 1
    }
}

/// Appends a DIFAT sector, which lists sectors of the FAT: the k-th, from 0. [MS-CFB 2.5]
fn append_difat_sector<W: Sink>(
    sink: &mut W,
    version: Version,
    numbers: &SectorCounts,
    k: u32,
) -> Result<u16, Failed>
    requires small { IsSmall numbers.now }
    requires place { k < numbers.now.difat }
    ensures { Sums (W.held sink.old) (W.held sink.new) (W.faults sink.old) (W.faults sink.new) result (layout.words_bytes (layout.difat_words (sector_of version) (plan_seen numbers.now) k)) }
{
    let each = version.words() as u32 - 1;
    let first = HEADER_DIFAT + each * k;
    let listed = numbers.fat.saturating_sub(first).min(each);
    let last = difat_behind(numbers, k);
    append_runs(
        sink,
        &[
            (Run::Numbers(first), listed),
            (Run::Same(FREE_SECTOR), each - listed),
            (Run::Same(last), 1),
        ],
    )
}

/// Appends the DIFAT sectors.
pub fn append_difat<W: Sink>(
    sink: &mut W,
    version: Version,
    numbers: &SectorCounts,
) -> Result<u16, Failed>
    requires { IsSmall numbers.now }
    ensures { Sums (W.held sink.old) (W.held sink.new) (W.faults sink.old) (W.faults sink.new) result (layout.difat_bytes (sector_of version) (plan_seen numbers.now)) }
{
    let mut sum = 0u16;
    for k in 0..numbers.difat {
        sum = sum.wrapping_add(append_difat_sector(sink, version, numbers, k)?);
    }
    Ok(sum)
}
