//! The storage of a name map, written.
ghost use Rattle.std.specs.Prelude.{◌≡◌, ◌<◌, ◌≤◌, [], ◌∷◌, length, filter, IfOk, OnOk};
ghost use Rattle.carrier_model.specs.FileTrees.{storage, no_file, streams_from, NO_CLASS};
ghost use Rattle.cfb_list.specs.Grown.{grown};
ghost use Rattle.cfb_list.specs.Listed as listed;
ghost use Rattle.msg_model.specs.StreamNames as plain;
ghost use Rattle.msg_model.specs.WrittenNames.{has_bytes, name_map_files};
ghost use Rattle.msg_nameid.specs.Gathered.{nothing, gathered, hash_files, files_gathered};
ghost use Rattle.msg_nameid.specs.Maps.{IsAssigned, names_in};

use crate::gathering::Streams;
use crate::hashes::Hashes;
use crate::map::NameMap;
use crate::stream_names::{text_of, value_name};
use carrier_io::{Blob, NoMemory};
use cfb_list::{Content, FileList};
use std::alloc::Global;

impl NameMap {
    /// Adds the storage of the map behind what is in the root: its GUIDs, its entries, its texts and its hash streams. After
    /// NoMemory some may be there. [MS-OXMSG 2.2.3]
    pub fn add_streams<'t, B: Blob>(
        &self,
        alloc: Global,
        files: &mut FileList<'t, B>,
    ) -> Result<(), NoMemory>
        requires assigned { IsAssigned self.now }
        ensures { OnOk result (files.new ≡ record files.old { storages = grown files.old.storages 0 (storage plain.NAME_MAP NO_CLASS (name_map_files (names_in self.now)) no_file) }) }
    {
        let count = files.count();
        prove!(count > 0);
        match self.gather(alloc) {
            Ok(streams) => add_gathered(alloc, files, streams),
            Err(NoMemory) => Err(NoMemory),
        }
    }

    /// The streams of all names.
    fn gather(&self, alloc: Global) -> Result<Streams, NoMemory>
        requires few { length self.now ≤ 32000 }
        ensures { IfOk result (λ s. s ≡ gathered nothing 0 (names_in self.now)) }
    {
        let mut streams = Streams::new(alloc)?;
        for (k, entry) in self.entries.iter().enumerate() {
            streams.push(k as u32, &entry.name)?;
        }
        Ok(streams)
    }
}

/// Adds the storage of gathered streams behind what is in the root. [MS-OXMSG 2.2.3]
fn add_gathered<'t, B: Blob>(
    alloc: Global,
    files: &mut FileList<'t, B>,
    streams: Streams,
) -> Result<(), NoMemory>
    requires { 0 < length files.old.storages }
    ensures { OnOk result (files.new ≡ record files.old { storages = grown files.old.storages 0 (storage plain.NAME_MAP NO_CLASS (files_gathered streams) no_file) }) }
{
    let at = files.add_storage(0, "__nameid_version1.0")?;
    let guids = streams.sets.bytes(alloc)?;
    add_stream(files, at, 0x0002_0102, guids)?;
    add_stream(files, at, 0x0003_0102, streams.entries)?;
    add_stream(files, at, 0x0004_0102, streams.texts)?;
    add_hashes(files, at, streams.hashes)
}

/// Adds the hash streams that are not empty. [MS-OXMSG 2.2.3.2]
fn add_hashes<'t, B: Blob>(
    files: &mut FileList<'t, B>,
    at: usize,
    hashes: Hashes,
) -> Result<(), NoMemory>
    requires { at < length files.old.storages }
    ensures { OnOk result (files.new ≡ record files.old { storages = grown files.old.storages at (streams_from (hash_files hashes)) }) }
{
    let mut tag = 0x1000_0102;
    for bytes in hashes.streams {
        add_filled(files, at, tag, bytes)?;
        tag += 0x1_0000;
    }
    Ok(())
}

/// Adds the stream that is named by a tag, unless it is empty.
fn add_filled<'t, B: Blob>(
    files: &mut FileList<'t, B>,
    at: usize,
    tag: u32,
    bytes: Vec<u8>,
) -> Result<(), NoMemory>
    requires { at < length files.old.storages }
    ensures { OnOk result (files.new ≡ record files.old { storages = grown files.old.storages at (streams_from (filter has_bytes ((plain.value_name tag, bytes.items) ∷ []))) }) }
{
    if bytes.is_empty() {
        return Ok(());
    }
    add_stream(files, at, tag, bytes)
}

/// Adds the stream that is named by a tag.
fn add_stream<'t, B: Blob>(
    files: &mut FileList<'t, B>,
    at: usize,
    tag: u32,
    bytes: Vec<u8>,
) -> Result<(), NoMemory>
    requires { at < length files.old.storages }
    ensures { OnOk result (files.new ≡ record files.old { storages = listed.with_child files.old.storages at (listed.stream (plain.value_name tag) bytes.items) }) }
{
    let name = value_name(tag);
    files.add_stream(at, text_of(&name), Content::Own(bytes))
}
