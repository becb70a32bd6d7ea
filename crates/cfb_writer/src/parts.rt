//! How many sectors the parts of a file have, and how many bytes the whole.
ghost use Rattle.std.specs.Prelude.{◌≡◌, ◌<◌, ◌^◌, ◌↔◌, ℕ, IsTrue};
ghost use Rattle.carrier_model.specs.Totals.{capped};
ghost use Rattle.cfb_writer.specs.Measures.{CanBeTold, IsMeasure, parts_seen, sectors_in};
ghost use Rattle.cfb_layout.specs.Counts.{plan_seen};
ghost use Rattle.cfb_writer.specs.Planned.{planned};
ghost use Rattle.cfb_layout.specs.Versions.{sector_of};

use crate::fat_count::{difat_count, fat_count};
use crate::totals::Totals;
use cfb_layout::{ENTRY, MINI_SECTOR, SectorCounts, Version, WORD};

/// The most bytes of an output.
const MOST_BYTES: u64 = 268_435_456;

/// So many entries, with the root, of 128 bytes have more bytes than a `u64` can tell.
const MANY_ENTRIES: u64 = (1 << 57) - 1;

/// So many mini sectors of 64 bytes have more bytes than a `u64` can tell.
const MANY_MINI: u64 = 1 << 58;

/// So many sectors of 512 bytes have more bytes than a `u64` can tell.
const MANY_LONG: u64 = 1 << 55;

/// The numbers of a file, and how many bytes it has.
#[derive(Clone, Copy, Debug, PartialEq, Eq)]
pub struct Measure {
    pub numbers: SectorCounts,
    pub size: u64,
}

/// The same counts as in `SectorCounts`, of a file that may be too large to be written.
#[derive(Clone, Copy, Debug, PartialEq, Eq)]
struct WideSectorCounts {
    /// Sectors of the FAT.
    fat: u64,
    /// DIFAT sectors.
    difat: u64,
    /// Sectors of the directory.
    directory: u64,
    /// Sectors of the mini FAT.
    mini_fat: u64,
    /// Mini sectors, of 64 bytes.
    mini_sectors: u64,
    /// Sectors of the mini stream.
    mini_stream: u64,
    /// Sectors of all streams with sectors of their own.
    long: u64,
}

impl WideSectorCounts {
    /// All sectors, with the header.
    fn all(&self) -> u64
        requires { sectors_in (parts_seen self.now) < 2 ^ 64 }
        ensures { result ≡ sectors_in (parts_seen self.now) }
    {
        let rest = self.directory + self.mini_fat + self.mini_stream + self.long;
        1 + (self.fat + self.difat + rest)
    }

    /// The same numbers in fewer bits.
    fn numbers(&self) -> SectorCounts
        requires sectors { sectors_in (parts_seen self.now) < 2 ^ 32 }
        requires mini { self.now.mini_sectors < 2 ^ 32 }
        ensures { plan_seen result ≡ parts_seen self.now }
    {
        SectorCounts {
            fat: self.fat as u32,
            difat: self.difat as u32,
            directory: self.directory as u32,
            mini_fat: self.mini_fat as u32,
            mini_sectors: self.mini_sectors as u32,
            mini_stream: self.mini_stream as u32,
            long: self.long as u32,
        }
    }
}

/// Whether the bytes of each part are so few that a `u64` can tell them.
fn can_be_told(totals: Totals) -> bool
    ensures { IsTrue result ↔ CanBeTold totals }
{
    totals.entries < MANY_ENTRIES && totals.mini < MANY_MINI && totals.long < MANY_LONG
}

/// The sectors of each part, where the bytes of each can be told. [MS-CFB 2.1]
fn count_parts(version: Version, totals: Totals) -> WideSectorCounts
    requires { CanBeTold totals }
    ensures plan { parts_seen result ≡ planned (sector_of version) totals.entries totals.mini totals.long }
    ensures few { sectors_in (parts_seen result) < 2 ^ 63 }
{
    let sector = version.sector();
    let directory = (ENTRY * (totals.entries + 1)).div_ceil(sector);
    let mini_fat = (WORD * totals.mini).div_ceil(sector);
    let mini_stream = (MINI_SECTOR * totals.mini).div_ceil(sector);
    let fat = fat_count(version, directory + mini_fat + mini_stream + totals.long);
    WideSectorCounts {
        fat,
        difat: difat_count(version, fat),
        directory,
        mini_fat,
        mini_sectors: totals.mini,
        mini_stream,
        long: totals.long,
    }
}

/// The numbers of a file for so many entries and pieces of streams; or how many bytes it would have, where an output may
/// not have so many.
pub fn measured(version: Version, totals: Totals) -> Result<Measure, u64>
    ensures { (entries mini long : ℕ) → totals ≡ record { entries = capped entries; mini = capped mini; long = capped long } → IsMeasure (sector_of version) (planned (sector_of version) entries mini long) result }
{
    if !can_be_told(totals) {
        return Err(u64::MAX);
    }
    let parts = count_parts(version, totals);
    let size = version.sector().saturating_mul(parts.all());
    if size > MOST_BYTES {
        return Err(size);
    }
    let numbers = parts.numbers();
    Ok(Measure { numbers, size })
}
