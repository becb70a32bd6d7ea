//! The bytes of values of several numbers or GUIDs, and the lengths of several texts.
ghost use Rattle.std.specs.Prelude.{◌≡◌, ◌<◌, ◌-◌, ◌++◌, length, flat_map, All, IfOk, OnOk};
ghost use Rattle.carrier_model.specs.Bytes as octets;
ghost use Rattle.carrier_model.specs.Values as plain;
ghost use Rattle.msg_model.specs.WrittenMsg.{length_words};
ghost use Rattle.msg_props.specs.Tagged.{IsSize};
ghost use Rattle.prop_values.specs.Kinds.{kind_number};

use crate::lengths::length_width;
use carrier_io::{Blob, NoMemory, Numbers, le32, le64};
use prop_values::{Guids, Kind, Parts, Shape};
use std::alloc::Global;

/// The bytes of each of several numbers; none of other kinds.
pub fn width_of_one(kind: Kind) -> usize
    ensures width { result ≡ plain.width_in plain.numbers_widths (kind_number kind) }
    ensures size { IsSize result }
{
    match kind.shape() {
        Shape::Numbers(width) => width,
        _ => 0,
    }
}

/// Several numbers, each in the bytes of the kind. [MS-OXMSG 2.1.4]
pub fn numbers_bytes(alloc: Global, kind: Kind, list: &Numbers) -> Result<Vec<u8>, NoMemory>
    requires some { 0 < plain.width_in plain.numbers_widths (kind_number kind) }
    requires few { length list.now < plain.list_limit }
    ensures { IfOk result (λ out. out.items ≡ flat_map (octets.le_bytes (plain.width_in plain.numbers_widths (kind_number kind))) list.now) }
{
    let width = width_of_one(kind);
    let mut out = Vec::with_capacity(alloc, list.len() * width)?;
    for k in 0..list.len() {
        out.extend_from_slice(&le64(*list.get(k))[..width])?;
    }
    Ok(out)
}

/// Several GUIDs. [MS-OXMSG 2.1.4]
pub fn guids_bytes(alloc: Global, list: &Guids) -> Result<Vec<u8>, NoMemory>
    requires { length list.now < plain.list_limit }
    ensures { IfOk result (λ out. out.items ≡ flat_map (λ set. set) list.now) }
{
    let mut out = Vec::with_capacity(alloc, 16 * list.len())?;
    for k in 0..list.len() {
        out.extend_from_slice(&list.get(k).0)?;
    }
    Ok(out)
}

/// Two words in eight bytes.
pub fn words(low: u32, high: u32) -> [u8; 8]
    ensures { result ≡ octets.le32 low ++ octets.le32 high }
{
    let a = le32(low);
    let b = le32(high);
    [a[0], a[1], a[2], a[3], b[0], b[1], b[2], b[3]]
}

/// Appends the length of one of several texts, its null counted, or of a binary, with a word of zeros behind it.
fn append_length<B: Blob>(out: &mut Vec<u8>, kind: Kind, bytes: &B) -> Result<(), NoMemory>
    requires { length (B.bytes bytes.now) < 0x4000_0000 }
    ensures { OnOk result (out.new.items ≡ out.old.items ++ length_words (kind_number kind - 0x1000) (B.bytes bytes.now)) }
{
    let size = (bytes.len() + kind.part_null_size()) as u32;
    out.extend_from_slice(&words(size, 0)[..length_width(kind)])?;
    Ok(())
}

/// The lengths of several texts or binaries. [MS-OXMSG 2.1.4]
pub fn lengths_bytes<B: Blob>(
    alloc: Global,
    kind: Kind,
    list: &Parts<B>,
) -> Result<Vec<u8>, NoMemory>
    requires short { All (λ x. length x < 0x4000_0000) list.now }
    requires few { length list.now < plain.list_limit }
    ensures { IfOk result (λ out. out.items ≡ flat_map (length_words (kind_number kind - 0x1000)) list.now) }
{
    let mut out = Vec::with_capacity(alloc, list.len() * length_width(kind))?;
    for k in 0..list.len() {
        append_length(&mut out, kind, list.get(k))?;
    }
    Ok(out)
}
