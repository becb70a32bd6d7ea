//! A compound file opened.
ghost use Rattle.std.specs.Prelude.{◌≡◌, ◌+◌, ◌≤◌, ◌<◌, ◌^◌, length, IfOk, Ok, Err};
ghost use Rattle.carrier_model.specs.Files.{Opened, open_file, opened_of, steps_of};
ghost use Rattle.carrier_model.specs.Loads.{load_of};
ghost use Rattle.carrier_model.specs.Sectors.{sector_count};
ghost use Rattle.carrier_model.specs.Tables.{sector_size};
ghost use Rattle.carrier_model.specs.Holds.{FileHolds};
ghost use Rattle.carrier_io.specs.Reads.{Gives, Reads};
ghost use Rattle.cfb_directory.specs.Shown.{files, mini_limit};

use crate::claiming::claim_streams;
use crate::files::Files;
use crate::outline::{Outline, read_outline};
use carrier_io::{Stop, Walk};
use cfb_sectors::Sectors;
use std::alloc::Global;

/// Opens a compound file of either version [MS-CFB 2.1], of at most 268,435,456 bytes. The first fault of its header, its
/// tables, its directory and its streams, in this order. The walk counts each word of the FAT and the mini FAT that is
/// followed.
pub fn open_files<'a>(alloc: Global, bytes: &'a [u8], walk: &mut Walk) -> Result<Files<'a>, Stop>
    requires short { length bytes.now ≤ 268435456 }
    ensures answer { Gives files result (open_file bytes.now) }
    ensures both { Reads files result (FileHolds bytes.now) (λ g. open_file bytes.now ≡ Err g) }
    ensures bounded { walk.new ≤ walk.old + sector_count (sector_size bytes.now) bytes.now + mini_limit (load_of (sector_size bytes.now) bytes.now) }
    ensures grows { walk.old ≤ walk.new }
    ensures steps { (o : Opened) → opened_of (sector_size bytes.now) bytes.now ≡ Ok o → walk.old < 2 ^ 63 → IfOk result (λ _. walk.new ≡ walk.old + steps_of o) }
{
    let mut sectors = Sectors::load(alloc, bytes, walk)?;
    let Outline { families, visited } = read_outline(alloc, &sectors)?;
    let streams = claim_streams(alloc, &mut sectors, &visited, walk)?;
    Ok(Files {
        sectors,
        streams,
        families,
    })
}
