//! Property lists, written.
ghost use Rattle.std.specs.Prelude.{◌≡◌, ◌<◌, length, OnOk};
ghost use Rattle.cfb_list.specs.Grown.{grown};
ghost use Rattle.msg_model.specs.ReadBack.{NamesAmong};
ghost use Rattle.msg_model.specs.WrittenMsg.{list_files};
ghost use Rattle.msg_nameid.specs.Maps.{IsAssigned, names_in};
ghost use Rattle.msg_props.specs.Heads.{head_bytes};

use crate::lists::PROPERTIES;
use crate::write_entries::property_stream;
use crate::write_streams::add_values;
use crate::write_tags::tags_of;
use carrier_io::{Blob, NoMemory};
use cfb_list::{Content, FileList};
use msg_nameid::NameMap;
use prop_values::{Part, Props};
use std::alloc::Global;

/// What stands at the head of a list: whose list it is, and how many recipients and attachments a message has.
/// [MS-OXMSG 2.4.1]
#[derive(Clone, Copy)]
pub struct Head {
    pub part: Part,
    pub recipients: u32,
    pub attachments: u32,
}

/// Adds a property list behind what is in a storage, which its number names: the stream of its entries, and the streams of
/// its values. `object` is the reserved word of the entry 3701000D of an attachment, where it has one. After NoMemory some
/// may be there. [MS-OXMSG 2.4]
pub fn add_props<'t, B: Blob>(
    alloc: Global,
    files: &mut FileList<'t, B>,
    at: usize,
    head: Head,
    props: &'t Props<B>,
    object: Option<u32>,
    names: &NameMap,
) -> Result<(), NoMemory>
    requires at { at < length files.old.storages }
    requires assigned { IsAssigned names.now }
    requires named { NamesAmong (names_in names.now) props.now }
    ensures { OnOk result (files.new ≡ record files.old { storages = grown files.old.storages at (list_files (names_in names.now) (head_bytes head) props.now object) }) }
{
    let tags = tags_of(alloc, props, names)?;
    let stream = property_stream(alloc, head, props, &tags, object)?;
    files.add_stream(at, PROPERTIES, Content::Own(stream))?;
    add_values(alloc, files, at, props, &tags)
}
