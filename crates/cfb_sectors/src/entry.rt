//! Directory entries.
ghost use Rattle.std.specs.Prelude.{◌≡◌, ◌+◌, ◌*◌, ◌<◌, ◌≤◌, length, map, take, drop, All, IsTrue};
ghost use Rattle.std.specs.List.{range_with_len};
ghost use Rattle.carrier_model.specs.Sectors.{is_size, u16_of, whole_count};
ghost use Rattle.carrier_model.specs.Entries.{entry_at, entry_count, entry_place, size_at};
ghost use Rattle.cfb_sectors.specs.Views.{entry};

use crate::fields::{CHILD, CLASS, ENTRY, LEFT, NAME_LENGTH, OBJECT_TYPE, RIGHT, SIZE, START};
use crate::header::{long, short};

/// A directory entry, with the fields as the file has them [MS-CFB 2.6.1].
#[derive(Clone, Copy)]
pub struct Entry {
    /// The object type: 0 free, 1 storage, 2 stream, 5 root.
    pub kind: u8,
    pub units: [u16; 32],
    /// The name's length in bytes, with its null.
    pub name_bytes: u16,
    pub left: u32,
    pub right: u32,
    pub child: u32,
    pub class: [u8; 16],
    pub start: u32,
    /// In bytes.
    pub size: u64,
}

/// The units of a name's field.
#[inline(always)]
fn read_units(bytes: &[u8], at: usize) -> [u16; 32]
    requires { at + 64 ≤ length bytes.now }
    ensures { result ≡ map (λ k. u16_of bytes.now (at + 2 * k)) (range_with_len 0 32) }
{
    let mut units = [0; 32];
    for i in 0..32 {
        units[i] = short(bytes, at + 2 * i);
    }
    units
}

/// The sixteen bytes at a place.
#[inline(always)]
pub fn read_class(bytes: &[u8], at: usize) -> [u8; 16]
    requires { at + 16 ≤ length bytes.now }
    ensures { result ≡ take 16 (drop at bytes.now) }
{
    let mut class = [0; 16];
    for i in 0..16 {
        class[i] = bytes[at + i];
    }
    class
}

/// The size of an entry's stream. In version 3, whose sectors have 512 bytes, the high half counts as zero. [MS-CFB 2.6.1]
fn read_size(bytes: &[u8], size: u32, at: usize) -> u64
    requires inside { at + 128 ≤ length bytes.now }
    ensures { result ≡ size_at size bytes.now at }
{
    let low = u64::from(long(bytes, at + SIZE));
    if size == 512 {
        low
    } else {
        low + u64::from(long(bytes, at + SIZE + 4)) * 0x1_0000_0000
    }
}

/// The entry whose first byte is at a place, in a file with sectors of this size. Its code is
/// put where it is called, so that what a caller does not use need not be read.
#[inline(always)]
pub fn read_entry(bytes: &[u8], size: u32, at: usize) -> Entry
    requires { at + 128 ≤ length bytes.now }
    ensures { entry result ≡ entry_at size bytes.now at }
{
    Entry {
        kind: bytes[at + OBJECT_TYPE],
        units: read_units(bytes, at),
        name_bytes: short(bytes, at + NAME_LENGTH),
        left: long(bytes, at + LEFT),
        right: long(bytes, at + RIGHT),
        child: long(bytes, at + CHILD),
        class: read_class(bytes, at + CLASS),
        start: long(bytes, at + START),
        size: read_size(bytes, size, at),
    }
}

/// Where the first byte of an entry lies, for a directory of these sectors, which are whole.
pub fn entry_place(bytes: &[u8], size: u32, directory: &[u32], id: u32) -> usize
    requires size { IsTrue (is_size size) }
    requires short { length bytes.now ≤ 268435456 }
    requires whole { All (λ n. n < whole_count size bytes.now) directory.now }
    requires there { id < entry_count size directory.now }
    ensures place { result ≡ entry_place size directory.now id }
    ensures inside { result + 128 ≤ length bytes.now }
{
    let size = size as usize;
    let at = ENTRY as usize * id as usize;
    let sector = directory[at / size] as usize;
    (sector + 1) * size + at % size
}
