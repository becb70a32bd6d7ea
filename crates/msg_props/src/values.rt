//! Values in streams.
ghost use Rattle.std.specs.Prelude.{◌≡◌, ◌<◌, ◌*◌, ◌^◌, IfOk, All, true, false, length, map};
ghost use Rattle.carrier_model.specs.Bytes.{le_number};
ghost use Rattle.carrier_model.specs.Kinds.{is_number_kind};
ghost use Rattle.carrier_model.specs.Values as plain;
ghost use Rattle.cfb_sectors.specs.Seen.{bytes_of};
ghost use Rattle.msg_model.specs.MsgValues.{fits_kind, means_empty, pieces_of};
ghost use Rattle.msg_props.specs.Entries.{seen};
ghost use Rattle.prop_values.specs.Kinds.{kind_number};
ghost use Rattle.prop_values.specs.Shapes.{HasShape, IsWidth};

use crate::lengths::length_width;
use crate::single_numbers::number_at;
use carrier_io::{Blob, NoMemory, Numbers};
use cfb_sectors::StreamView;
use prop_names::Guid;
use prop_values::{Guids, Kind, Shape, Value};
use std::alloc::Global;

/// Whether a text or a binary of a kind may have so many bytes: a String has an even number. [MS-OXMSG 2.1.3]
pub fn fits_bytes(kind: Kind, len: usize) -> bool
    requires { plain.is_bytes_kind (kind_number kind) ≡ true }
    ensures { result ≡ fits_kind (kind_number kind) len }
{
    match kind {
        Kind::String => len % 2 == 0,
        _ => true,
    }
}

/// Whether the stream of a kind may have so many bytes: of a GUID 16, of a String an even number, and of several values
/// whole elements. [MS-OXMSG 2.1.3, 2.1.4]
pub fn fits(kind: Kind, shape: Shape, len: usize) -> bool
    requires shape { HasShape (kind_number kind) shape }
    requires streamed { is_number_kind (kind_number kind) ≡ false }
    ensures { result ≡ fits_kind (kind_number kind) len }
{
    match shape {
        Shape::Number(_) => unreachable!(),
        Shape::Guid => len == 16,
        Shape::Bytes => fits_bytes(kind, len),
        Shape::Numbers(width) => len % width == 0,
        Shape::Guids => len % 16 == 0,
        Shape::Parts(_) => len % length_width(kind) == 0,
    }
}

/// Whether an absent stream of this size is an empty value: the size is 0, or that of a text's null. [MS-OXMSG 2.4.2.2]
pub fn is_empty_size(kind: Kind, size: u32) -> bool
    ensures { result ≡ means_empty (kind_number kind) size }
{
    size == 0 || size as usize == kind.null_size()
}

/// A GUID.
pub fn guid_value<'a>(view: &StreamView<'a>) -> Value<StreamView<'a>>
    requires { length (bytes_of view.now) ≡ 16 }
    ensures value { seen result ≡ plain.guid (bytes_of view.now) }
    ensures valid { plain.IsValue (seen result) }
{
    let mut set = [0; 16];
    view.copy_range(0, &mut set);
    Value::Guid(Guid(set))
}

/// A text, or bytes. They stay in the input.
pub fn bytes_value<'a>(view: &StreamView<'a>, kind: Kind) -> Result<Value<StreamView<'a>>, NoMemory>
    requires shape { HasShape (kind_number kind) Shape.Bytes }
    requires fits { fits_kind (kind_number kind) (length (bytes_of view.now)) ≡ true }
    ensures value { IfOk result (λ v. seen v ≡ plain.bytes (kind_number kind) (bytes_of view.now)) }
    ensures valid { IfOk result (λ v. plain.IsValue (seen v)) }
{
    Ok(Value::Bytes {
        kind,
        bytes: view.copy()?,
    })
}

/// Several numbers of a width in bytes.
fn numbers_in(alloc: Global, view: &StreamView<'_>, width: usize) -> Result<Numbers, NoMemory>
    requires { IsWidth width }
    ensures list { IfOk result (λ l. l ≡ map le_number (pieces_of width (bytes_of view.now))) }
    ensures fit { IfOk result (λ l. All (λ n. n < 2 ^ (8 * width)) l) }
{
    let count = view.len() / width;
    let mut list = Numbers::with_capacity(alloc, count)?;
    for k in 0..count {
        list.push(number_at(view, width * k, width))?;
    }
    Ok(list)
}

/// Several GUIDs.
fn guids_in(alloc: Global, view: &StreamView<'_>) -> Result<Guids, NoMemory>
    ensures list { IfOk result (λ l. l ≡ pieces_of 16 (bytes_of view.now)) }
    ensures fit { IfOk result (λ l. All (λ g. length g ≡ 16) l) }
{
    let count = view.len() / 16;
    let mut list = Guids::with_capacity(alloc, count)?;
    for k in 0..count {
        let mut set = [0; 16];
        view.copy_range(16 * k, &mut set);
        list.push(Guid(set))?;
    }
    Ok(list)
}

/// A value of several numbers of a width in bytes.
pub fn numbers_value<'a>(
    alloc: Global,
    view: &StreamView<'a>,
    kind: Kind,
    width: usize,
) -> Result<Value<StreamView<'a>>, NoMemory>
    requires { HasShape (kind_number kind) (Shape.Numbers width) }
    ensures value { IfOk result (λ v. seen v ≡ plain.numbers (kind_number kind) (map le_number (pieces_of width (bytes_of view.now)))) }
    ensures valid { IfOk result (λ v. plain.IsValue (seen v)) }
{
    Ok(Value::Numbers {
        kind,
        list: numbers_in(alloc, view, width)?,
    })
}

/// A value of several GUIDs.
pub fn guids_value<'a>(
    alloc: Global,
    view: &StreamView<'a>,
) -> Result<Value<StreamView<'a>>, NoMemory>
    ensures value { IfOk result (λ v. seen v ≡ plain.guids (pieces_of 16 (bytes_of view.now))) }
    ensures valid { IfOk result (λ v. plain.IsValue (seen v)) }
{
    Ok(Value::Guids(guids_in(alloc, view)?))
}
