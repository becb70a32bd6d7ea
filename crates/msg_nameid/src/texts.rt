//! Texts of a name map.
ghost use Rattle.std.specs.Prelude.{◌≡◌, ◌+◌, ◌≤◌, length, take, drop, IfOk};
ghost use Rattle.carrier_io.specs.Reads.{Gives};
ghost use Rattle.carrier_model.specs.Bytes.{units_of};
ghost use Rattle.carrier_model.specs.Sectors.{u32_of};
ghost use Rattle.cfb_sectors.specs.Seen.{bytes_of, stream as stream_seen};
ghost use Rattle.msg_model.specs.NameMap as model;

use carrier_io::{Blob, Fault, NoMemory, Reason, Stop, Units};
use cfb_sectors::{StreamView, file_offset};
use prop_names::units_of_bytes;
use std::alloc::Global;

/// The most bytes of a text.
const MOST_BYTES: usize = 510;

/// The little-endian number in the four bytes at a place.
#[tactic(auto, unfolding(carrier_model::specs::Sectors::u32_of))]
pub fn word_at(view: &StreamView<'_>, at: usize) -> u32
    requires { at + 4 ≤ length (bytes_of view.now) }
    ensures { result ≡ u32_of (bytes_of view.now) at }
{
    view.u32_at(at)
}

/// Whether a text may have so many bytes, where so many follow.
fn is_text_size(room: usize, size: usize) -> bool
    ensures { result ≡ model.is_text_size room size }
{
    size % 2 == 0 && size <= MOST_BYTES && size <= room
}

/// The units of so many bytes at a place.
fn units_at(
    alloc: Global,
    texts: &StreamView<'_>,
    at: usize,
    size: usize,
) -> Result<Units, NoMemory>
    requires low { at ≤ 0x100000003 }
    requires few { size ≤ 510 }
    requires inside { at + size ≤ length (bytes_of texts.now) }
    ensures units { IfOk result (λ units. units ≡ units_of (take size (drop at (bytes_of texts.now)))) }
    ensures few { IfOk result (λ units. length units ≤ 255) }
{
    let mut buffer = [0; MOST_BYTES];
    let bytes = &mut buffer[..size];
    texts.copy_range(at, bytes);
    units_of_bytes(alloc, bytes)
}

/// The units of the text at a place: its size, and so many bytes. BadNameOffset at the entry, whose offset in the file is
/// given, and BadNameLength at the size. [MS-OXMSG 2.2.3.1.3]
#[tactic(auto, unfolding(msg_model::specs::NameMap::text_at))]
pub fn text_at(alloc: Global, texts: &StreamView<'_>, at: u32, entry: u64) -> Result<Units, Stop>
    ensures answer { Gives (λ units. units) result (model.text_at (stream_seen texts.now) at entry) }
    ensures few { IfOk result (λ units. length units ≤ 255) }
{
    let at = at as usize;
    if at + 4 > texts.len() {
        return Err(Stop::Fault(Fault {
            reason: Reason::BadNameOffset,
            offset: entry,
        }));
    }
    let size = word_at(texts, at) as usize;
    if !is_text_size(texts.len() - (at + 4), size) {
        return Err(Stop::Fault(Fault {
            reason: Reason::BadNameLength,
            offset: file_offset(texts, at as u64),
        }));
    }
    Ok(units_at(alloc, texts, at + 4, size)?)
}
