//! The header.
ghost use Rattle.std.specs.Prelude.{◌≡◌, ◌+◌, ◌++◌};
ghost use Rattle.carrier_model.specs.Layout as layout;
ghost use Rattle.cfb_layout.specs.Counts.{plan_seen, IsSmall};
ghost use Rattle.carrier_io.specs.Summed.{Sums};
ghost use Rattle.cfb_layout.specs.Versions.{sector_of};

use crate::appending::append_parts;
use crate::runs::{END_OF_CHAIN, FREE_SECTOR, Run, append_runs};
use carrier_io::{Failed, Sink, append_zeros, le32};
use cfb_layout::{CUTOFF, HEADER, HEADER_DIFAT, SectorCounts, Version};

/// Signature, class, versions, byte order and the powers of two, for sectors of 512 bytes. [MS-CFB 2.2]
const FRONT_THREE: [u8; 40] = [
    0xD0, 0xCF, 0x11, 0xE0, 0xA1, 0xB1, 0x1A, 0xE1, 0, 0, 0, 0, 0, 0, 0, 0, 0, 0, 0, 0, 0, 0, 0, 0,
    0x3E, 0, 3, 0, 0xFE, 0xFF, 9, 0, 6, 0, 0, 0, 0, 0, 0, 0,
];

/// The same for sectors of 4,096 bytes.
const FRONT_FOUR: [u8; 40] = [
    0xD0, 0xCF, 0x11, 0xE0, 0xA1, 0xB1, 0x1A, 0xE1, 0, 0, 0, 0, 0, 0, 0, 0, 0, 0, 0, 0, 0, 0, 0, 0,
    0x3E, 0, 4, 0, 0xFE, 0xFF, 12, 0, 6, 0, 0, 0, 0, 0, 0, 0,
];

/// What the header begins with.
fn front(version: Version) -> [u8; 40]
    ensures { result ≡ layout.header_front (sector_of version) }
{
    match version {
        Version::Three => FRONT_THREE,
        Version::Four => FRONT_FOUR,
    }
}

/// The number of the directory's sectors, which only the later version has.
fn directory_field(version: Version, numbers: &SectorCounts) -> u32
    ensures { result ≡ layout.directory_field (sector_of version) (plan_seen numbers.now) }
{
    match version {
        Version::Three => 0,
        Version::Four => numbers.directory,
    }
}

/// The first of so many sectors, or the end where there are none.
pub fn start_or_end(count: u32, start: u32) -> u32
    ensures { result ≡ layout.start_or_end count start }
{
    if count == 0 { END_OF_CHAIN } else { start }
}

/// Appends what stands before the header's list of sectors of the FAT.
fn append_counts<W: Sink>(
    sink: &mut W,
    version: Version,
    numbers: &SectorCounts,
) -> Result<u16, Failed>
    requires { IsSmall numbers.now }
    ensures { Sums (W.held sink.old) (W.held sink.new) (W.faults sink.old) (W.faults sink.new) result (layout.header_front (sector_of version) ++ layout.header_counts (sector_of version) (plan_seen numbers.now)) }
{
    append_parts(
        sink,
        &[
            &front(version),
            &le32(directory_field(version, numbers)),
            &le32(numbers.fat),
            &le32(numbers.directory_start()),
            &le32(0),
            &le32(CUTOFF),
            &le32(start_or_end(numbers.mini_fat, numbers.mini_fat_start())),
            &le32(numbers.mini_fat),
            &le32(start_or_end(numbers.difat, numbers.fat)),
            &le32(numbers.difat),
        ],
    )
}

/// Appends the header. [MS-CFB 2.2]
pub fn append_header<W: Sink>(
    sink: &mut W,
    version: Version,
    numbers: &SectorCounts,
) -> Result<u16, Failed>
    requires { IsSmall numbers.now }
    ensures { Sums (W.held sink.old) (W.held sink.new) (W.faults sink.old) (W.faults sink.new) result (layout.header_bytes (sector_of version) (plan_seen numbers.now)) }
{
    let counts = append_counts(sink, version, numbers)?;
    let listed = numbers.fat.min(HEADER_DIFAT);
    let list = append_runs(
        sink,
        &[
            (Run::Numbers(0), listed),
            (Run::Same(FREE_SECTOR), HEADER_DIFAT - listed),
        ],
    )?;
    let zeros = append_zeros(sink, version.sector() - HEADER)?;
    Ok(counts.wrapping_add(list.wrapping_add(zeros)))
}
