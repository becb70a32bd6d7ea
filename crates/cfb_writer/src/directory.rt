//! The directory.
ghost use Rattle.std.specs.Prelude.{◌≡◌, ◌≤◌, ◌+◌, ◌-◌, ◌*◌, ◌++◌, ◌∷◌, length, replicate};
ghost use Rattle.std.specs.List.{flat_map, range_with_len, AllByRecursion};
ghost use Rattle.carrier_model.specs.Bytes.{le16, le32};
ghost use Rattle.carrier_model.specs.Layout as layout;
ghost use Rattle.cfb_list.specs.Contents.{bytes_seen, name_seen};
ghost use Rattle.cfb_writer.specs.Entered.{slot_seen, record_bytes, behind_name, stream_start};
ghost use Rattle.cfb_writer.specs.Laid.{bytes_of, IsShort, root_slot, slots_in, others_of};
ghost use Rattle.cfb_layout.specs.Counts.{plan_seen, IsSmall};
ghost use Rattle.cfb_writer.specs.Numbered.{IsPlanFor};
ghost use Rattle.carrier_io.specs.Summed.{Sums};
ghost use Rattle.cfb_writer.specs.Shares.{share_total};
ghost use Rattle.cfb_layout.specs.Versions.{sector_of};

use crate::appending::append_parts;
use crate::entries::{Entries, Entry};
use crate::header::start_or_end;
use crate::runs::END_OF_CHAIN;
use crate::streams::{Share, pieces_of};
use carrier_io::{Blob, Failed, Sink, append, le16, le32};
use cfb_layout::{ENTRY, MINI_SECTOR, NO_STREAM, SectorCounts, Version};
use cfb_list::{ContentView, KindView, NameView, numbered_units};

/// The object type of a storage. [MS-CFB 2.6.1]
const STORAGE: u8 = 1;

/// The object type of a stream.
const STREAM: u8 = 2;

/// The object type of the root.
const ROOT: u8 = 5;

/// The color of an entry. [MS-CFB 2.6.1]
const BLACK: u8 = 1;

/// Root Entry.
const ROOT_NAME: [u16; 10] = [82, 111, 111, 116, 32, 69, 110, 116, 114, 121];

/// An entry's fields behind its name.
#[derive(Clone, Copy, Debug, PartialEq, Eq)]
struct Fields {
    kind: u8,
    left: u32,
    right: u32,
    child: u32,
    class: [u8; 16],
    start: u32,
    size: u32,
}

/// A name with zeros up to 64 bytes.
fn name_bytes(name: &[u16]) -> [u8; 64]
    requires { length name.now ≤ 31 }
    ensures { result ≡ flat_map le16 name.now ++ replicate (64 - 2 * length name.now) 0 }
{
    let mut bytes = [0u8; 64];
    for k in 0..name.len() {
        let unit = le16(name[k]);
        bytes[2 * k] = unit[0];
        bytes[2 * k + 1] = unit[1];
    }
    bytes
}

/// What stands between an entry's name and its class: the name's length in bytes, with its null, the type, the color, and
/// the links. All entries are black.
fn front_bytes(name: &[u16], fields: &Fields) -> [u8; 16]
    requires { length name.now ≤ 31 }
    ensures { result ≡ le16 (2 * (length name.now + 1)) ++ fields.now.kind ∷ layout.BLACK ∷ (le32 fields.now.left ++ (le32 fields.now.right ++ le32 fields.now.child)) }
{
    let len = le16(2 * (name.len() as u16 + 1));
    let left = le32(fields.left);
    let right = le32(fields.right);
    let child = le32(fields.child);
    [
        len[0],
        len[1],
        fields.kind,
        BLACK,
        left[0],
        left[1],
        left[2],
        left[3],
        right[0],
        right[1],
        right[2],
        right[3],
        child[0],
        child[1],
        child[2],
        child[3],
    ]
}

/// What stands at an entry's end: where its stream begins, and how many bytes it has.
fn back_bytes(fields: &Fields) -> [u8; 12]
    ensures { result ≡ le32 fields.now.start ++ (le32 fields.now.size ++ le32 0) }
{
    let start = le32(fields.start);
    let size = le32(fields.size);
    [
        start[0], start[1], start[2], start[3], size[0], size[1], size[2], size[3], 0, 0, 0, 0,
    ]
}

/// What stands behind an entry's name, without state bits and times.
fn bytes_behind(name: &[u16], fields: &Fields) -> [u8; 64]
    requires { length name.now ≤ 31 }
    ensures { result ≡ behind_name (length name.now) fields.now }
{
    let mut bytes = [0u8; 64];
    bytes[..16].copy_from_slice(&front_bytes(name, fields));
    bytes[16..32].copy_from_slice(&fields.class);
    bytes[52..].copy_from_slice(&back_bytes(fields));
    bytes
}

/// The bytes of an entry: its name and its fields. [MS-CFB 2.6.1]
fn entry_bytes(name: &[u16], fields: &Fields) -> [u8; 128]
    requires { length name.now ≤ 31 }
    ensures { result ≡ record_bytes name.now fields.now }
{
    let mut bytes = [0u8; 128];
    bytes[..64].copy_from_slice(&name_bytes(name));
    bytes[64..].copy_from_slice(&bytes_behind(name, fields));
    bytes
}

/// Appends an entry. [MS-CFB 2.6.1]
fn append_fields<W: Sink>(sink: &mut W, name: &[u16], fields: &Fields) -> Result<u16, Failed>
    requires { length name.now ≤ 31 }
    ensures { Sums (W.held sink.old) (W.held sink.new) (W.faults sink.old) (W.faults sink.new) result (record_bytes name.now fields.now) }
{
    append(sink, &entry_bytes(name, fields))
}

/// Appends an entry whose name may end in a number.
fn append_named<W: Sink>(sink: &mut W, name: NameView<'_>, fields: &Fields) -> Result<u16, Failed>
    requires { length (name_seen name) ≤ 31 }
    ensures { Sums (W.held sink.old) (W.held sink.new) (W.faults sink.old) (W.faults sink.new) result (record_bytes (name_seen name.entry) fields.now) }
{
    match name {
        NameView::Whole(name) => append_fields(sink, name, fields),
        NameView::Numbered { front, number } => {
            let (units, len) = numbered_units(front, number);
            append_fields(sink, &units[..len], fields)
        }
    }
}

/// Where the next short stream begins in the mini stream, and the next long one in the file, in sectors.
#[derive(Clone, Copy, Debug, PartialEq, Eq)]
pub struct Next {
    pub mini: u32,
    pub long: u32,
}

/// Where a content begins.
fn start_of<B: Blob>(content: &ContentView<'_, B>, next: Next) -> u32
    ensures { result ≡ stream_start next (bytes_seen B.bytes content.now) }
{
    if content.is_short() {
        next.mini
    } else if content.is_long() {
        next.long
    } else {
        END_OF_CHAIN
    }
}

/// Appends an entry beside the root.
fn append_entry<B: Blob, W: Sink>(
    sink: &mut W,
    entry: &Entry<'_, B>,
    next: Next,
) -> Result<u16, Failed>
    requires { IsShort (slot_seen B.bytes entry.now) }
    ensures { Sums (W.held sink.old) (W.held sink.new) (W.faults sink.old) (W.faults sink.new) result (layout.slot_bytes (slot_seen B.bytes entry.now) (layout.start_of_slot next.mini next.long (slot_seen B.bytes entry.now)) (length (bytes_of (slot_seen B.bytes entry.now)))) }
{
    let mut fields = Fields {
        kind: STORAGE,
        left: entry.left,
        right: entry.right,
        child: entry.child,
        class: [0; 16],
        start: 0,
        size: 0,
    };
    match &entry.file.kind {
        KindView::Stream(content) => {
            fields.kind = STREAM;
            fields.start = start_of(content, next);
            fields.size = content.size() as u32;
        }
        KindView::Storage { class, .. } => fields.class = *class,
    }
    append_named(sink, entry.file.name, &fields)
}

/// Appends the entries beside the root, where the first streams begin there.
fn append_entries<B: Blob, W: Sink>(
    sink: &mut W,
    version: Version,
    entries: &Entries<'_, B>,
    first: Next,
) -> Result<u16, Failed>
    requires short { AllByRecursion IsShort entries.now.others }
    requires mini { first.mini + share_total Share.Short (sector_of version) entries.now.others ≤ 2147483648 }
    requires long { first.long + share_total Share.Long (sector_of version) entries.now.others ≤ 2147483648 }
    ensures { Sums (W.held sink.old) (W.held sink.new) (W.faults sink.old) (W.faults sink.new) result (layout.slots_bytes (sector_of version) first.mini first.long entries.now.others) }
{
    let mut next = first;
    let mut sum = 0u16;
    for k in 0..entries.len() {
        let entry = entries.entry(k);
        sum = sum.wrapping_add(append_entry(sink, &entry, next)?);
        next.mini += pieces_of(&entry.file.kind, Share::Short, version) as u32;
        next.long += pieces_of(&entry.file.kind, Share::Long, version) as u32;
    }
    Ok(sum)
}

/// Appends the root's entry, which tells of the mini stream. [MS-CFB 2.6.2]
fn append_root<B: Blob, W: Sink>(
    sink: &mut W,
    numbers: &SectorCounts,
    entries: &Entries<'_, B>,
) -> Result<u16, Failed>
    requires { IsSmall numbers.now }
    ensures { Sums (W.held sink.old) (W.held sink.new) (W.faults sink.old) (W.faults sink.new) result (layout.root_bytes (plan_seen numbers.now) (root_slot entries.now.root_class entries.now.top)) }
{
    let fields = Fields {
        kind: ROOT,
        left: NO_STREAM,
        right: NO_STREAM,
        child: entries.top(),
        class: entries.root_class(),
        start: start_or_end(numbers.mini_sectors, numbers.mini_stream_start()),
        size: MINI_SECTOR as u32 * numbers.mini_sectors,
    };
    append_fields(sink, &ROOT_NAME, &fields)
}

/// Appends entries that are not used. [MS-CFB 2.6.3]
fn append_unused<W: Sink>(sink: &mut W, count: u32) -> Result<u16, Failed>
    ensures { Sums (W.held sink.old) (W.held sink.new) (W.faults sink.old) (W.faults sink.new) result (flat_map (λ _. layout.unused_slot) (range_with_len 0 count)) }
{
    let mut sum = 0u16;
    for _k in 0..count {
        let part = append_parts(sink, &[&[0; 68], &[0xFF; 12], &[0; 48]])?;
        sum = sum.wrapping_add(part);
    }
    Ok(sum)
}

/// Appends the directory. [MS-CFB 2.6]
pub fn append_directory<B: Blob, W: Sink>(
    sink: &mut W,
    version: Version,
    numbers: &SectorCounts,
    entries: &Entries<'_, B>,
) -> Result<u16, Failed>
    requires small { IsSmall numbers.now }
    requires plan { IsPlanFor (sector_of version) (plan_seen numbers.now) (slots_in entries.now) }
    requires short { AllByRecursion IsShort (others_of entries.now) }
    ensures { Sums (W.held sink.old) (W.held sink.new) (W.faults sink.old) (W.faults sink.new) result (layout.directory_bytes (sector_of version) (plan_seen numbers.now) (slots_in entries.now)) }
{
    let root = append_root(sink, numbers, entries)?;
    let first = Next {
        mini: 0,
        long: numbers.long_start(),
    };
    let others = append_entries(sink, version, entries, first)?;
    let room = version.sector() as u32 / ENTRY as u32 * numbers.directory;
    let unused = append_unused(sink, room - (1 + entries.len() as u32))?;
    Ok(root.wrapping_add(others.wrapping_add(unused)))
}
