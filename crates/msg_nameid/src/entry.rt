//! One entry of a name map.
ghost use Rattle.std.specs.Prelude.{◌≡◌, ◌+◌, ◌*◌, ◌≤◌, length, IfOk, IfSome, IsTrue};
ghost use Rattle.std.specs.Option.{option_map};
ghost use Rattle.carrier_io.specs.Reads.{Gives};
ghost use Rattle.carrier_model.specs.Keys.{IsName};
ghost use Rattle.cfb_sectors.specs.Seen.{bytes_of, stream as stream_seen};
ghost use Rattle.msg_model.specs.NameMap as model;
ghost use Rattle.prop_names.specs.Meaning.{name_of};
ghost use Rattle.msg_nameid.specs.Read.{streams_seen, entry_seen};

use crate::sets::{PS_MAPI, PS_PUBLIC_STRINGS};
use crate::texts::{text_at, word_at};
use carrier_io::{Blob, Fault, Reason, Stop};
use cfb_sectors::{StreamView, file_offset};
use prop_names::{Guid, Name};
use std::alloc::Global;

/// The GUIDs, the entries and the texts of a name map. [MS-OXMSG 2.2.3.1]
#[derive(Clone, Copy)]
pub struct NameStreams<'s, 'a> {
    pub guids: &'s StreamView<'a>,
    pub entries: &'s StreamView<'a>,
    pub texts: &'s StreamView<'a>,
}

/// An entry: a number, or where a text lies; a word of three numbers; and the entry's offset in the file.
/// [MS-OXMSG 2.2.3.1.2]
#[derive(Clone, Copy)]
pub struct NameEntry {
    pub identifier: u32,
    pub word: u32,
    pub offset: u64,
}

impl NameEntry {
    /// Whether the name is a text.
    fn is_text(&self) -> bool
        ensures { result ≡ model.is_text (entry_seen self.now) }
    {
        self.word % 2 == 1
    }

    /// Which property set.
    fn set_index(&self) -> u16
        ensures { result ≡ model.set_index (entry_seen self.now) }
    {
        (self.word / 2 % 0x8000) as u16
    }

    /// Which property.
    pub fn property_index(&self) -> u16
        ensures { result ≡ model.property_index (entry_seen self.now) }
    {
        (self.word / 0x10000) as u16
    }
}

/// The k-th entry.
pub fn entry_at(entries: &StreamView<'_>, k: usize) -> NameEntry
    requires there { 8 * k + 8 ≤ length (bytes_of entries.now) }
    requires room { 8 * k + 8 ≤ 0xFFFFFFFFFFFFFFFF }
    ensures { entry_seen result ≡ model.name_entry (stream_seen entries.now) k }
{
    NameEntry {
        identifier: word_at(entries, 8 * k),
        word: word_at(entries, 8 * k + 4),
        offset: file_offset(entries, 8 * k as u64),
    }
}

/// Whether the stream has the GUIDs up to that of an index.
fn has_set(guids: &StreamView<'_>, index: u16) -> bool
    ensures { result ≡ model.has_set (bytes_of guids.now) index }
{
    index < 2 || 16 * usize::from(index - 2) <= guids.len()
}

/// The property set of an index from 3 on.
fn listed_set(guids: &StreamView<'_>, index: u16) -> Guid
    requires listed { 3 ≤ index }
    requires there { IsTrue (model.has_set (bytes_of guids.now) index) }
    ensures { result.0 ≡ model.set_at (bytes_of guids.now) index }
{
    let mut set = [0; 16];
    guids.copy_range(16 * usize::from(index - 3), &mut set);
    Guid(set)
}

/// The property set of an index.
fn set_at(guids: &StreamView<'_>, index: u16) -> Guid
    requires some { 1 ≤ index }
    requires there { IsTrue (model.has_set (bytes_of guids.now) index) }
    ensures { result.0 ≡ model.set_at (bytes_of guids.now) index }
{
    match index {
        1 => Guid(PS_MAPI),
        2 => Guid(PS_PUBLIC_STRINGS),
        _ => listed_set(guids, index),
    }
}

/// The name of an entry in a property set. BadGuidIndex and BadNameOffset at the entry, BadNameLength at the length of the
/// text.
fn name_in_set(alloc: Global, streams: NameStreams<'_, '_>, entry: NameEntry) -> Result<Name, Stop>
    requires { 1 ≤ model.set_index (entry_seen entry) }
    ensures answer { Gives name_of result (model.name_of (streams_seen streams.entry) (entry_seen entry)) }
    ensures name { IfOk result (λ n. IsName (name_of n)) }
{
    let index = entry.set_index();
    if !has_set(streams.guids, index) {
        return Err(Stop::Fault(Fault {
            reason: Reason::BadGuidIndex,
            offset: entry.offset,
        }));
    }
    let set = set_at(streams.guids, index);
    if entry.is_text() {
        let units = text_at(alloc, streams.texts, entry.identifier, entry.offset)?;
        return Ok(Name::of_text(alloc, set, units)?);
    }
    Ok(Name::Number {
        set,
        number: entry.identifier,
    })
}

/// The name of an entry; None in the property set 0.
pub fn name_at(
    alloc: Global,
    streams: NameStreams<'_, '_>,
    entry: NameEntry,
) -> Result<Option<Name>, Stop>
    ensures answer { Gives (option_map name_of) result (model.named_by (streams_seen streams.entry) (entry_seen entry)) }
    ensures name { IfOk result (λ o. IfSome o (λ n. IsName (name_of n))) }
{
    if entry.set_index() == 0 {
        return Ok(None);
    }
    Ok(Some(name_in_set(alloc, streams, entry)?))
}
