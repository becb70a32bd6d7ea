//! OLE stores: their storages and streams in order, a storage before what is in it. [MS-CFB 1.3]
ghost use Rattle.std.specs.Prelude.{◌≡◌, ◌||◌, nat_lt, map, OnOk};
ghost use Rattle.json_model.specs.ByteTrees.{AreBytes, FilesHaveBytes};
ghost use Rattle.json_model.specs.StoreForms.{storage_entry, stream_entry, entry_json, entries_below, store_json};
ghost use Rattle.json_writer.specs.Counted.{Counts};
ghost use Rattle.msg_tree.specs.StoreMeaning.{store_of, member_of};
ghost use Rattle.serde_json.specs.Written.{compact_text};
ghost use Rattle.tree_json.specs.Listing.{member_entries};
ghost use Rattle.tree_json.specs.Lists.{behind};
ghost use Rattle.tree_json.specs.Paths.{names_in};
ghost use Rattle.tree_json.specs.Wholes.{MemberHasBytes, StoreHasBytes};

use crate::paths::{Path, write_path};
use crate::write_parts::{write_digits, write_guid};
use carrier_io::{Blob, Failed, Sink};
use json_writer::{append, separator};
use msg_tree::{Member, Store};
use prop_names::Guid;

/// Appends a stream with its path.
fn write_stream<B: Blob, W: Sink>(
    sink: &mut W,
    count: &mut u64,
    path: &Path,
    bytes: &B,
) -> Result<(), Failed>
    ensures json { Counts (W.held sink.old) (W.held sink.new) (W.faults sink.old) (W.faults sink.new) count.old count.new result (compact_text (entry_json (stream_entry (names_in path.now) (B.bytes bytes.now)))) }
    ensures bytes { OnOk result (AreBytes (B.bytes bytes.now)) }
{
    append(sink, count, b"{\"data\":")?;
    write_digits(sink, count, bytes)?;
    append(sink, count, b",\"path\":")?;
    write_path(sink, count, path)?;
    append(sink, count, b"}")
}

/// Appends a storage with its path.
fn write_storage<W: Sink>(
    sink: &mut W,
    count: &mut u64,
    path: &Path,
    class: [u8; 16],
) -> Result<(), Failed>
    ensures json { Counts (W.held sink.old) (W.held sink.new) (W.faults sink.old) (W.faults sink.new) count.old count.new result (compact_text (entry_json (storage_entry (names_in path.now) class))) }
    ensures bytes { OnOk result (AreBytes class) }
{
    append(sink, count, b"{\"class\":")?;
    write_guid(sink, count, &Guid(class))?;
    append(sink, count, b",\"path\":")?;
    write_path(sink, count, path)?;
    append(sink, count, b"}")
}

/// Whether something stands before the member at a place.
fn is_later(later: bool, k: usize) -> bool
    ensures { result ≡ later || nat_lt 0 k }
{
    later || k > 0
}

/// Appends the members of a storage, each before those in it, behind others where there are some.
#[cycle(listing)]
fn write_members<'p, B: Blob, W: Sink>(
    sink: &mut W,
    count: &mut u64,
    later: bool,
    above: &'p Path<'p>,
    store: &'p Store<B>,
) -> Result<(), Failed>
    ensures json { Counts (W.held sink.old) (W.held sink.new) (W.faults sink.old) (W.faults sink.new) count.old count.new result (behind later (map entry_json (entries_below (names_in above.now) (store_of B.bytes store.now).members))) }
    ensures bytes { OnOk result (FilesHaveBytes (store_of B.bytes store.now).members) }
{
    for k in 0..store.len() {
        let path = Path::Under(above, store.name(k));
        write_member(sink, count, is_later(later, k), &path, store.member(k))?;
    }
    Ok(())
}

/// Appends the member of a path, and those in it.
#[cycle(listing)]
fn write_member<'p, B: Blob, W: Sink>(
    sink: &mut W,
    count: &mut u64,
    later: bool,
    path: &'p Path<'p>,
    member: &'p Member<B>,
) -> Result<(), Failed>
    ensures json { Counts (W.held sink.old) (W.held sink.new) (W.faults sink.old) (W.faults sink.new) count.old count.new result (behind later (map entry_json (member_entries (names_in path.now) (member_of B.bytes member.now)))) }
    ensures bytes { OnOk result (MemberHasBytes (member_of B.bytes member.now)) }
{
    append(sink, count, separator(later))?;
    match member {
        Member::Stream(bytes) => write_stream(sink, count, path, bytes),
        Member::Storage(inner) => {
            write_storage(sink, count, path, inner.class())?;
            write_members(sink, count, true, path, inner)
        }
    }
}

/// Appends a store: its class, and its members.
pub fn write_store<B: Blob, W: Sink>(
    sink: &mut W,
    count: &mut u64,
    store: &Store<B>,
) -> Result<(), Failed>
    ensures json { Counts (W.held sink.old) (W.held sink.new) (W.faults sink.old) (W.faults sink.new) count.old count.new result (compact_text (store_json (store_of B.bytes store.now))) }
    ensures bytes { OnOk result (StoreHasBytes (store_of B.bytes store.now)) }
{
    append(sink, count, b"{\"class\":")?;
    write_guid(sink, count, &Guid(store.class()))?;
    append(sink, count, b",\"members\":[")?;
    write_members(sink, count, false, &Path::Top, store)?;
    append(sink, count, b"]}")
}
