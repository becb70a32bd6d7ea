//! The least number of sectors of a FAT.
ghost use Rattle.std.specs.Prelude.{◌≡◌, ◌≤◌, ◌+◌, ◌^◌};
ghost use Rattle.carrier_model.specs.Layout as layout;
ghost use Rattle.carrier_model.specs.Tables as tables;
ghost use Rattle.cfb_layout.specs.Versions.{sector_of};

use cfb_layout::{HEADER_DIFAT, Version};

/// How many DIFAT sectors list the sectors of a FAT, beside the header. [MS-CFB 2.5]
pub fn difat_count(version: Version, fat: u64) -> u64
    requires { fat ≤ 2 ^ 62 }
    ensures { result ≡ tables.difat_count (sector_of version) fat }
{
    let words = version.words();
    (fat.saturating_sub(HEADER_DIFAT as u64) + (words - 2)) / (words - 1)
}

/// Whether a FAT of so many sectors has a word for every sector.
fn suffices(version: Version, rest: u64, fat: u64) -> bool
    requires rest { rest ≤ 2 ^ 60 }
    requires fat { fat ≤ rest + 1 }
    ensures { result ≡ layout.suffices (sector_of version) rest fat }
{
    let words = version.words();
    fat + difat_count(version, fat) + rest <= words.saturating_mul(fat)
}

/// The least number of sectors of a FAT that has a word for every sector, where there are so many others.
pub fn fat_count(version: Version, rest: u64) -> u64
    requires { rest ≤ 2 ^ 60 }
    ensures least { result ≡ layout.fat_count (sector_of version) rest }
    ensures few { result ≤ rest + 1 }
{
    let words = version.words();
    let mut fat = 0;
    while !suffices(version, rest, fat) {
        fat = (rest + difat_count(version, fat)).div_ceil(words - 1);
    }
    fat
}
