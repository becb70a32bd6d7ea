//! The name map of a file, read.
ghost use Rattle.std.specs.Prelude.{◌≡◌, ◌++◌, ◌∷◌, [], List, Ok, Err, None, Some, OnOk, IfErr};
ghost use Rattle.std.specs.Option.{option_map};
ghost use Rattle.carrier_io.specs.Reads.{Gives, Reads, Fails};
ghost use Rattle.cfb_directory.specs.Shown.{files as files_seen};
ghost use Rattle.msg_model.specs.MsgMessage.{name_streams, name_streams_in, streams_of};
ghost use Rattle.msg_model.specs.NameMap.{NamePairs, pairs_of, given_by, Given};
ghost use Rattle.msg_nameid.specs.Drafts.{IsWhole, IsDraftOf};
ghost use Rattle.msg_nameid.specs.Read.{streams_seen, entry_seen, stream_or_none};
ghost use Rattle.cfb_directory.specs.Found.{IsThere, storage_seen};
ghost use Rattle.cfb_sectors.specs.Seen.{stream as stream_seen};

use crate::drafts::Draft;
use crate::entry::{NameEntry, NameStreams, entry_at, name_at};
use crate::map::NameMap;
use carrier_io::{Blob, Fault, Reason, Stop};
use cfb_directory::{Files, StorageId};
use cfb_sectors::StreamView;
use std::alloc::Global;

/// The storage of the name map, and its streams of GUIDs, entries and texts. [MS-OXMSG 2.2.3]
const NAME_MAP: &str = "__nameid_version1.0";

const GUID_STREAM: &str = "__substg1.0_00020102";

const ENTRY_STREAM: &str = "__substg1.0_00030102";

const TEXT_STREAM: &str = "__substg1.0_00040102";

/// The bytes of an entry.
const ENTRY_SIZE: usize = 8;

/// A view, or that of no bytes.
fn or_empty<'s, 'a>(
    found: Option<&'s StreamView<'a>>,
    empty: &'s StreamView<'a>,
) -> &'s StreamView<'a>
    requires { stream_seen empty.now ≡ stream_or_none None }
    ensures { stream_seen result.now ≡ stream_or_none (option_map (λ v. stream_seen v.now) found.entry) }
{
    match found {
        Some(view) => view,
        None => empty,
    }
}

/// A fault at an entry.
fn fault_at(reason: Reason, entry: NameEntry) -> Stop
    ensures { result ≡ Stop.Fault (record { reason = reason; offset = entry.offset }) }
{
    Stop::Fault(Fault {
        reason,
        offset: entry.offset,
    })
}

/// Adds what an entry gives. BadPropertyIndex, DoubleId, BadGuidIndex and BadNameOffset at the entry, BadNameLength at the
/// length of the text. After an error the draft may be broken.
fn add_entry(
    alloc: Global,
    streams: NameStreams<'_, '_>,
    entry: NameEntry,
    draft: &mut Draft,
) -> Result<(), Stop>
    requires { IsWhole draft.old }
    ensures whole { OnOk result (IsWhole draft.new) }
    ensures added { (given : List Given) → IsDraftOf draft.old given → OnOk result ((g : Given) × (given_by (streams_seen streams.entry) given (entry_seen entry) ≡ Ok g) × IsDraftOf draft.new (given ++ g ∷ [])) }
    ensures fault { (given : List Given) → IsDraftOf draft.old given → IfErr result (λ stop. Fails stop (given_by (streams_seen streams.entry) given (entry_seen entry))) }
{
    let index = entry.property_index();
    if index > 0x7FFF {
        return Err(fault_at(Reason::BadPropertyIndex, entry));
    }
    if draft.has(index) {
        return Err(fault_at(Reason::DoubleId, entry));
    }
    match name_at(alloc, streams, entry)? {
        Some(name) => draft.add_name(index, name)?,
        None => draft.add_nameless(index)?,
    }
    Ok(())
}

/// The names of the entries, or the first fault.
fn read_entries(alloc: Global, streams: NameStreams<'_, '_>) -> Result<NameMap, Stop>
    ensures { Gives (λ m. m) result (pairs_of (streams_seen streams.entry)) }
{
    let mut draft = Draft::new(alloc);
    for k in 0..streams.entries.len() / ENTRY_SIZE {
        let entry = entry_at(streams.entries, k);
        add_entry(alloc, streams, entry, &mut draft)?;
    }
    Ok(NameMap::from_draft(draft))
}

/// The names of the storage of a name map. An absent stream is empty.
fn read_storage<'a>(
    alloc: Global,
    files: &Files<'a>,
    at: StorageId,
    empty: &StreamView<'a>,
) -> Result<NameMap, Stop>
    requires there { IsThere files.now at }
    requires empty { stream_seen empty.now ≡ stream_or_none None }
    ensures { Gives (λ m. m) result (pairs_of (name_streams_in (streams_of (Some (storage_seen files.now at))))) }
{
    let streams = NameStreams {
        guids: or_empty(files.stream(at, GUID_STREAM), empty),
        entries: or_empty(files.stream(at, ENTRY_STREAM), empty),
        texts: or_empty(files.stream(at, TEXT_STREAM), empty),
    };
    read_entries(alloc, streams)
}

impl NameMap {
    /// The names of a file, or the first fault of its name map: entry by entry BadPropertyIndex, DoubleId, BadGuidIndex and
    /// BadNameOffset at the entry, BadNameLength at the length of the text. An absent storage or stream is empty.
    /// [MS-OXMSG 2.2.3]
    pub fn read<'a>(alloc: Global, files: &Files<'a>) -> Result<NameMap, Stop>
        ensures answer { Gives (λ m. m) result (pairs_of (name_streams (files_seen files.now))) }
        ensures both { Reads (λ m. m) result (NamePairs (name_streams (files_seen files.now))) (λ g. pairs_of (name_streams (files_seen files.now)) ≡ Err g) }
    {
        let empty = StreamView::empty(alloc);
        match files.storage(files.root(), NAME_MAP) {
            Some(at) => read_storage(alloc, files, at, &empty),
            None => Ok(NameMap::from_draft(Draft::new(alloc))),
        }
    }
}
