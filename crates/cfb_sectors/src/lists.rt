//! The sectors that hold the table, and those that name them.
ghost use Rattle.std.specs.Prelude.{◌≡◌, ℕ, ◌+◌, ◌*◌, ◌/◌, ◌-◌, ◌≤◌, ◌<◌, ◌^◌, ◌++◌, ◌∷◌, List, [], length, IfOk, All, vec_len, IsTrue};
ghost use Rattle.carrier_model.specs.Marks.{Marks, unmarked};
ghost use Rattle.carrier_model.specs.Sectors.{is_size, sector_count, whole_count};
ghost use Rattle.carrier_model.specs.Tables.{sector_of, fat_place, fat_sectors_of, difat_of, difat_count};
ghost use Rattle.carrier_io.specs.Reads.{Gives};
ghost use Rattle.carrier_io.specs.Reasons.{number_of};
ghost use Rattle.cfb_sectors.specs.Took.{Tells};

use crate::fields::{DIFAT, FAT_NAMED, FAT_NAMES};
use crate::header::{fault, long};
use crate::marks::SectorMarks;
use carrier_io::{Fault, Reason, Stop};
use std::alloc::Global;

/// The sector that is named at a place, which is marked. SectorOutOfRange, the reason given for a marked one, or
/// FileTruncated, at that place.
#[tactic(auto, unfolding(carrier_model::specs::Tables::sector_of))]
fn take_sector(
    bytes: &[u8],
    size: usize,
    place: usize,
    why: Reason,
    marks: &mut SectorMarks,
) -> Result<u32, Fault>
    requires size { IsTrue (is_size size) }
    requires long { size ≤ length bytes.now }
    requires short { length bytes.now ≤ 268435456 }
    requires inside { place + 4 ≤ length bytes.now }
    requires marks { length marks.old ≡ sector_count size bytes.now }
    ensures answer { (earlier : List ℕ) → Marks marks.old earlier → Tells (λ n. n) result (sector_of size bytes.now place (number_of why) earlier) }
    ensures marked { (earlier : List ℕ) → Marks marks.old earlier → IfOk result (λ n. Marks marks.new (earlier ++ n ∷ [])) }
    ensures below { IfOk result (λ n. n < whole_count size bytes.now) }
    ensures length { length marks.new ≡ length marks.old }
    ensures bounded { unmarked marks.new ≤ unmarked marks.old }
{
    let sector = long(bytes, place);
    if sector as usize >= marks.len() {
        return Err(fault(Reason::SectorOutOfRange, place));
    }
    if marks.has(sector) {
        return Err(fault(why, place));
    }
    if sector as usize >= (bytes.len() - size) / size {
        return Err(fault(Reason::FileTruncated, place));
    }
    marks.mark(sector);
    Ok(sector)
}

/// How many DIFAT sectors a FAT of so many sectors has. [MS-CFB 2.5]
pub fn difat_count(size: u32, count: u32) -> u32
    requires size { IsTrue (is_size size) }
    requires small { count < 2 ^ 31 }
    ensures { result ≡ difat_count size count }
{
    if count <= FAT_NAMED {
        0
    } else {
        (count - FAT_NAMED).div_ceil(size / 4 - 1)
    }
}

/// The DIFAT's sectors, which are marked; the header names the first. [MS-CFB 2.5]
pub fn take_difat(
    alloc: Global,
    bytes: &[u8],
    size: usize,
    count: u32,
    marks: &mut SectorMarks,
) -> Result<Vec<u32>, Stop>
    requires size { IsTrue (is_size size) }
    requires long { size ≤ length bytes.now }
    requires short { length bytes.now ≤ 268435456 }
    requires marks { length marks.old ≡ sector_count size bytes.now }
    ensures answer { (earlier : List ℕ) → Marks marks.old earlier → Gives (λ v. v.items) result (difat_of count 68 size bytes.now earlier) }
    ensures marked { (earlier : List ℕ) → Marks marks.old earlier → IfOk result (λ v. Marks marks.new (earlier ++ v.items)) }
    ensures below { IfOk result (λ v. All (λ n. n < whole_count size bytes.now) v.items) }
    ensures count { IfOk result (λ v. vec_len v ≡ count) }
    ensures length { length marks.new ≡ length marks.old }
    ensures bounded { unmarked marks.new ≤ unmarked marks.old }
{
    let mut difat = Vec::new(alloc);
    let mut place = DIFAT;
    for _i in 0..count {
        let sector = take_sector(bytes, size, place, Reason::Cycle, marks)?;
        difat.push(sector)?;
        place = (sector as usize + 1) * size + (size - 4);
    }
    Ok(difat)
}

/// Where the FAT's sector of this index is named: in the header, or in a DIFAT sector. [MS-CFB 2.5]
fn fat_place(size: usize, difat: &[u32], i: usize) -> usize
    requires size { IsTrue (is_size size) }
    requires small { i < 2 ^ 32 }
    requires named { i < 109 + (size / 4 - 1) * length difat.now }
    ensures { result ≡ fat_place size difat.now i }
{
    let named = FAT_NAMED as usize;
    if i < named {
        FAT_NAMES + 4 * i
    } else {
        let each = size / 4 - 1;
        let holder = difat[(i - named) / each];
        (holder as usize + 1) * size + 4 * ((i - named) % each)
    }
}

/// The FAT's sectors, which are marked. [MS-CFB 2.3, 2.5]
pub fn take_fat_sectors(
    alloc: Global,
    bytes: &[u8],
    size: usize,
    count: u32,
    difat: &[u32],
    marks: &mut SectorMarks,
) -> Result<Vec<u32>, Stop>
    requires size { IsTrue (is_size size) }
    requires long { size ≤ length bytes.now }
    requires short { length bytes.now ≤ 268435456 }
    requires named { count ≤ 109 + (size / 4 - 1) * length difat.now }
    requires holders { All (λ n. n < whole_count size bytes.now) difat.now }
    requires marks { length marks.old ≡ sector_count size bytes.now }
    ensures answer { (earlier : List ℕ) → Marks marks.old earlier → Gives (λ v. v.items) result (fat_sectors_of count 0 size bytes.now difat.now earlier) }
    ensures marked { (earlier : List ℕ) → Marks marks.old earlier → IfOk result (λ v. Marks marks.new (earlier ++ v.items)) }
    ensures below { IfOk result (λ v. All (λ n. n < whole_count size bytes.now) v.items) }
    ensures count { IfOk result (λ v. vec_len v ≡ count) }
    ensures length { length marks.new ≡ length marks.old }
    ensures bounded { unmarked marks.new ≤ unmarked marks.old }
{
    let mut fat = Vec::new(alloc);
    for i in 0..count as usize {
        let place = fat_place(size, difat, i);
        let sector = take_sector(bytes, size, place, Reason::Shared, marks)?;
        fat.push(sector)?;
    }
    Ok(fat)
}
