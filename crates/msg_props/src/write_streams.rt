//! The streams of a list's values.
ghost use Rattle.std.specs.Prelude.{◌≡◌, ◌<◌, ◌-◌, length, flat_map, zip, OnOk};
ghost use Rattle.carrier_model.specs.Values as plain;
ghost use Rattle.msg_model.specs.WrittenMsg.{element_streams, value_streams};
ghost use Rattle.msg_props.specs.Tagged.{tagged_streams, with_streams};
ghost use Rattle.prop_values.specs.Kinds.{kind_number};
ghost use Rattle.prop_values.specs.Meaning.{value_of};

use crate::stream_names::element_front;
use crate::write_values::{guids_bytes, lengths_bytes, numbers_bytes};
use carrier_io::{Blob, NoMemory};
use cfb_list::{Content, FileList, grown_lists_are_trees};
use msg_nameid::text_of;
use prop_values::{Kind, Parts, Prop, Props, Value};
use std::alloc::Global;

/// What stands before a tag in the name of its value's stream: `__substg1.0_`. [MS-OXMSG 2.1.3]
const VALUE_FRONT: &[u16] = &[95, 95, 115, 117, 98, 115, 116, 103, 49, 46, 48, 95];

/// Adds the streams of several texts or binaries, each with its null. [MS-OXMSG 2.1.4]
fn add_elements<'t, B: Blob>(
    files: &mut FileList<'t, B>,
    at: usize,
    tag: u32,
    kind: Kind,
    list: &'t Parts<B>,
) -> Result<(), NoMemory>
    requires at { at < length files.old.storages }
    ensures { OnOk result (files.new ≡ with_streams files.old at (element_streams tag (kind_number kind - 0x1000) 0 list.now)) }
{
    if list.len() == 0 {
        return Ok(());
    }
    let front = element_front(tag);
    let zeros = kind.part_null_size() as u8;
    files.add_row(at, text_of(&front), list.as_slice(), zeros)
}

/// Adds the streams of a value with its tag: none of a number, which stands in its entry. [MS-OXMSG 2.1.3, 2.1.4]
fn add_value<'t, B: Blob>(
    alloc: Global,
    files: &mut FileList<'t, B>,
    at: usize,
    tag: u32,
    value: &'t Value<B>,
) -> Result<(), NoMemory>
    requires at { at < length files.old.storages }
    requires value { plain.IsValue (value_of B.bytes value.now) }
    ensures { OnOk result (files.new ≡ with_streams files.old at (value_streams tag (value_of B.bytes value.now))) }
{
    match value {
        Value::Number { .. } => Ok(()),
        Value::Guid(set) => {
            let bytes = Vec::from_slice(alloc, &set.0)?;
            files.add_numbered_stream(at, VALUE_FRONT, tag, Content::Own(bytes))
        }
        Value::Bytes { bytes, .. } => {
            files.add_numbered_stream(at, VALUE_FRONT, tag, Content::Value { bytes, zeros: 0 })
        }
        Value::Numbers { kind, list } => {
            let bytes = numbers_bytes(alloc, *kind, list)?;
            files.add_numbered_stream(at, VALUE_FRONT, tag, Content::Own(bytes))
        }
        Value::Guids(list) => {
            let bytes = guids_bytes(alloc, list)?;
            files.add_numbered_stream(at, VALUE_FRONT, tag, Content::Own(bytes))
        }
        Value::Parts { kind, list } => {
            let bytes = lengths_bytes(alloc, *kind, list)?;
            files.add_numbered_stream(at, VALUE_FRONT, tag, Content::Own(bytes))?;
            add_elements(files, at, tag, *kind, list)
        }
    }
}

/// Adds the streams of a property.
fn add_prop<'t, B: Blob>(
    alloc: Global,
    files: &mut FileList<'t, B>,
    at: usize,
    tag: u32,
    prop: &'t Prop<B>,
) -> Result<(), NoMemory>
    requires at { at < length files.old.storages }
    ensures { OnOk result (files.new ≡ with_streams files.old at (tagged_streams (tag, prop.now))) }
{
    add_value(alloc, files, at, tag, &prop.value)
}

/// Adds the streams of the values of a list, whose tags are these. [MS-OXMSG 2.4]
pub fn add_values<'t, B: Blob>(
    alloc: Global,
    files: &mut FileList<'t, B>,
    at: usize,
    props: &'t Props<B>,
    tags: &[u32],
) -> Result<(), NoMemory>
    requires at { at < length files.old.storages }
    requires each { length tags.now ≡ length props.now }
    ensures { OnOk result (files.new ≡ with_streams files.old at (flat_map tagged_streams (zip tags.now props.now))) }
{
    grown_lists_are_trees();
    for k in 0..props.len() {
        add_prop(alloc, files, at, tags[k], props.get(k))?;
    }
    Ok(())
}
