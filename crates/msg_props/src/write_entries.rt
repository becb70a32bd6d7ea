//! The stream of a list's entries.
ghost use Rattle.std.specs.Prelude.{◌≡◌, ◌<◌, ◌≤◌, ◌^◌, ◌++◌, length, flat_map, map, List, IfOk, OnOk};
ghost use Rattle.carrier_model.specs.Bytes as octets;
ghost use Rattle.carrier_model.specs.Keys as keys;
ghost use Rattle.carrier_model.specs.Values as plain;
ghost use Rattle.msg_model.specs.WrittenMsg as written;
ghost use Rattle.msg_props.specs.Heads.{head_bytes};
ghost use Rattle.msg_props.specs.Tagged.{tagged_entry, tagged_range};
ghost use Rattle.prop_values.specs.Meaning.{value_of};

use crate::lengths::length_width;
use crate::lists::{ENTRY, head_size};
use crate::write_values::{width_of_one, words};
use crate::writing::Head;
use carrier_io::{Blob, NoMemory, le64};
use prop_values::{Part, Prop, Props, Value};
use std::alloc::Global;

/// The tag of an attachment's object: its id, and its type.
const OBJECT_TAG: u32 = 0x3701_000d;

/// Readable and writable.
const FLAGS: u32 = 6;

/// A size and a reserved word of zero.
fn sized(size: usize) -> [u8; 8]
    requires { size < 2 ^ 32 }
    ensures { result ≡ octets.le32 size ++ octets.le32 0 }
{
    words(size as u32, 0)
}

/// The eight bytes of an entry's value: a number with zeros behind it, or a size. [MS-OXMSG 2.4.2]
fn value_field<B: Blob>(value: &Value<B>) -> [u8; 8]
    requires { plain.IsValue (value_of B.bytes value.now) }
    ensures { result ≡ written.value_field (value_of B.bytes value.now) }
{
    match value {
        Value::Number { bits, .. } => le64(*bits),
        Value::Guid(_) => sized(16),
        Value::Bytes { kind, bytes } => sized(bytes.len() + kind.null_size()),
        Value::Numbers { kind, list } => sized(list.len() * width_of_one(*kind)),
        Value::Guids(list) => sized(16 * list.len()),
        Value::Parts { kind, list } => sized(list.len() * length_width(*kind)),
    }
}

/// Appends a tag, the flags of what may be read and written, and a field behind them. [MS-OXMSG 2.4.2]
fn append_fields(out: &mut Vec<u8>, tag: u32, field: &[u8]) -> Result<(), NoMemory>
    ensures { OnOk result (out.new.items ≡ out.old.items ++ (octets.le32 tag ++ (octets.le32 written.FLAGS ++ field.now))) }
{
    out.extend_from_slice(&words(tag, FLAGS))?;
    out.extend_from_slice(field)?;
    Ok(())
}

/// Appends a property's entry.
fn append_entry<B: Blob>(out: &mut Vec<u8>, tag: u32, prop: &Prop<B>) -> Result<(), NoMemory>
    ensures { OnOk result (out.new.items ≡ out.old.items ++ tagged_entry (tag, prop.now)) }
{
    append_fields(out, tag, &value_field(&prop.value))
}

/// Appends the entries of properties from a place up to another, without that one.
fn append_range<B: Blob>(
    out: &mut Vec<u8>,
    props: &Props<B>,
    tags: &[u32],
    from: usize,
    to: usize,
) -> Result<(), NoMemory>
    requires each { length tags.now ≡ length props.now }
    requires order { from ≤ to }
    requires within { to ≤ length props.now }
    ensures { OnOk result (out.new.items ≡ out.old.items ++ flat_map tagged_entry (tagged_range from to tags.now props.now)) }
{
    for k in 0..to - from {
        append_entry(out, tags[from + k], props.get(from + k))?;
    }
    Ok(())
}

/// Appends the entry of an object, with its reserved word. [MS-OXMSG 2.4.2.2]
fn append_object(out: &mut Vec<u8>, word: u32) -> Result<(), NoMemory>
    ensures { OnOk result (out.new.items ≡ out.old.items ++ written.object_entry word) }
{
    append_fields(out, OBJECT_TAG, &words(0xffff_ffff, word))
}

/// Appends the entries of a list, and that of an object in its place.
fn append_entries<B: Blob>(
    out: &mut Vec<u8>,
    props: &Props<B>,
    tags: &[u32],
    object: Option<u32>,
) -> Result<(), NoMemory>
    requires { length tags.now ≡ length props.now }
    ensures { (names : List keys.Name) → tags.now ≡ map (written.tag_of names) props.now → OnOk result (out.new.items ≡ out.old.items ++ written.entries_bytes names props.now object) }
{
    match object {
        None => append_range(out, props, tags, 0, props.len()),
        Some(word) => {
            let place = props.count_before_object();
            append_range(out, props, tags, 0, place)?;
            append_object(out, word)?;
            append_range(out, props, tags, place, props.len())
        }
    }
}

/// Appends the next numbers of recipients and attachments, and how many there are.
fn append_counts(out: &mut Vec<u8>, recipients: u32, attachments: u32) -> Result<(), NoMemory>
    ensures { OnOk result (out.new.items ≡ out.old.items ++ (octets.le32 recipients ++ (octets.le32 attachments ++ (octets.le32 recipients ++ octets.le32 attachments)))) }
{
    let counts = words(recipients, attachments);
    out.extend_from_slice(&counts)?;
    out.extend_from_slice(&counts)?;
    Ok(())
}

/// Appends the head of a list. [MS-OXMSG 2.4.1]
fn append_head(out: &mut Vec<u8>, head: Head) -> Result<(), NoMemory>
    ensures { OnOk result (out.new.items ≡ out.old.items ++ head_bytes head) }
{
    out.extend_from_slice(&[0; 8])?;
    match head.part {
        Part::Top => {
            append_counts(out, head.recipients, head.attachments)?;
            out.extend_from_slice(&[0; 8])?;
            Ok(())
        }
        Part::Embedded => append_counts(out, head.recipients, head.attachments),
        Part::Recipient => Ok(()),
        Part::Attachment => Ok(()),
    }
}

/// The property stream of a list whose tags are these: its head, and its entries. Room for them all is taken at once.
/// [MS-OXMSG 2.4]
pub fn property_stream<B: Blob>(
    alloc: Global,
    head: Head,
    props: &Props<B>,
    tags: &[u32],
    object: Option<u32>,
) -> Result<Vec<u8>, NoMemory>
    requires { length tags.now ≡ length props.now }
    ensures { (names : List keys.Name) → tags.now ≡ map (written.tag_of names) props.now → IfOk result (λ out. out.items ≡ head_bytes head ++ written.entries_bytes names props.now object) }
{
    let count = props.len().saturating_add(usize::from(object.is_some()));
    let room = count
        .saturating_mul(ENTRY)
        .saturating_add(head_size(head.part));
    let mut out = Vec::with_capacity(alloc, room)?;
    append_head(&mut out, head)?;
    append_entries(&mut out, props, tags, object)?;
    Ok(out)
}
