//! Values of properties in a list.
ghost use Rattle.std.specs.Prelude.{◌≡◌, ◌*◌, ◌<◌, ◌^◌, length, IfOk, IfErr, true, All};
ghost use Rattle.tnef_model.specs.TnefLists as lists;
ghost use Rattle.carrier_model.specs.Bytes as octets;
ghost use Rattle.carrier_model.specs.Kinds as kinds;
ghost use Rattle.carrier_model.specs.Values as plain;
ghost use Rattle.prop_values.specs.Kinds.{kind_number};
ghost use Rattle.tnef_props.specs.Steps.{Takes, Refuses};
ghost use Rattle.prop_values.specs.Shapes.{HasShape, IsWidth};
ghost use Rattle.tnef_props.specs.Meaning.{seen};

use crate::fields::{one, padded, word};
use crate::rest::Rest;
use crate::texts::text;
use carrier_io::{Numbers, Stop, u16_at, u32_at, u64_at};
use prop_names::Guid;
use prop_values::{Guids, Kind, Parts, Shape, Value};
use std::alloc::Global;

/// The number that two, four or eight bytes are.
#[inline(always)]
fn number_in(bytes: &[u8]) -> u64
    requires { IsWidth (length bytes.now) }
    ensures number { result ≡ octets.le_number bytes.now }
    ensures below { result < 2 ^ (8 * length bytes.now) }
{
    match bytes.len() {
        2 => u64::from(u16_at(bytes, 0)),
        4 => u64::from(u32_at(bytes, 0)),
        _ => u64_at(bytes, 0),
    }
}

/// A number's bits; a truth value is 0 or 1.
fn bits_in(kind: Kind, bytes: &[u8]) -> u64
    requires { IsWidth (length bytes.now) }
    ensures bits { result ≡ kinds.bits_of (kind_number kind) bytes.now }
    ensures below { result < 2 ^ (8 * length bytes.now) }
    ensures truth { kind_number kind ≡ 0x000B → result < 2 }
{
    let n = number_in(bytes);
    match kind {
        Kind::Boolean => { if n == 0 { 0 } else { 1 } }
        _ => n,
    }
}

/// A count, and so many numbers of a width in bytes.
#[tactic(auto, unfolding(tnef_model::specs::TnefLists::many, tnef_model::specs::TnefLists::numbers_of))]
fn numbers_from<'a>(
    alloc: Global,
    from: Rest<'a>,
    width: usize,
) -> Result<(Numbers, Rest<'a>), Stop>
    requires { IsWidth width }
    ensures found { IfOk result (λ x. Takes (lists.numbers_of width) from.entry x.0 x.1) }
    ensures fit { IfOk result (λ x. All (λ n. n < 2 ^ (8 * width)) x.0) }
    ensures few { IfOk result (λ x. length x.0 < length from.entry.bytes.now) }
    ensures fault { IfErr result (Refuses (lists.numbers_of width) from.entry) }
{
    let (count, mut rest) = word(from)?;
    let mut list = Numbers::with_capacity(alloc, rest.room_for(count))?;
    for _k in 0..count {
        let (bytes, after) = padded(rest, width)?;
        list.push(number_in(bytes))?;
        rest = after;
    }
    Ok((list, rest))
}

/// A count, and so many GUIDs.
#[tactic(auto, unfolding(tnef_model::specs::TnefLists::many))]
fn guids_from<'a>(alloc: Global, from: Rest<'a>) -> Result<(Guids, Rest<'a>), Stop>
    ensures found { IfOk result (λ x. Takes (lists.many (lists.padded 16)) from.entry x.0 x.1) }
    ensures fit { IfOk result (λ x. All (λ g. length g ≡ 16) x.0) }
    ensures few { IfOk result (λ x. length x.0 < length from.entry.bytes.now) }
    ensures fault { IfErr result (Refuses (lists.many (lists.padded 16)) from.entry) }
{
    let (count, mut rest) = word(from)?;
    let mut list = Guids::with_capacity(alloc, rest.room_for(count))?;
    for _k in 0..count {
        let (set, after) = guid_value(rest)?;
        list.push(set)?;
        rest = after;
    }
    Ok((list, rest))
}

/// A GUID as a value.
fn guid_value<'a>(from: Rest<'a>) -> Result<(Guid, Rest<'a>), Stop>
    ensures found { IfOk result (λ x. Takes (lists.padded 16) from.entry x.0.0 x.1) }
    ensures fault { IfErr result (Refuses (lists.padded 16) from.entry) }
{
    let (bytes, rest) = padded(from, 16)?;
    let mut set = [0; 16];
    set.copy_from_slice(bytes);
    Ok((Guid(set), rest))
}

/// A count, and so many texts of a kind.
#[tactic(auto, unfolding(tnef_model::specs::TnefLists::many))]
fn parts_from<'a>(
    alloc: Global,
    from: Rest<'a>,
    kind: Kind,
) -> Result<(Parts<&'a [u8]>, Rest<'a>), Stop>
    requires { plain.is_bytes_kind (kind_number kind) ≡ true }
    ensures found { IfOk result (λ x. Takes (lists.many (lists.text (kind_number kind))) from.entry x.0 x.1) }
    ensures fit { IfOk result (λ x. All (plain.IsBytes (kind_number kind)) x.0) }
    ensures few { IfOk result (λ x. length x.0 < length from.entry.bytes.now) }
    ensures fault { IfErr result (Refuses (lists.many (lists.text (kind_number kind))) from.entry) }
{
    let (count, mut rest) = word(from)?;
    let mut list = Parts::with_capacity(alloc, rest.room_for(count))?;
    for _k in 0..count {
        let (bytes, after) = text(rest, kind)?;
        list.push(bytes)?;
        rest = after;
    }
    Ok((list, rest))
}

/// A value of one number.
fn number_value<'a>(
    from: Rest<'a>,
    kind: Kind,
    width: usize,
) -> Result<(Value<&'a [u8]>, Rest<'a>), Stop>
    requires { HasShape (kind_number kind) (Shape.Number width) }
    ensures found { IfOk result (λ x. Takes (lists.value (kind_number kind)) from.entry (seen x.0) x.1) }
    ensures valid { IfOk result (λ x. plain.IsValue (seen x.0)) }
    ensures fault { IfErr result (Refuses (lists.value (kind_number kind)) from.entry) }
{
    let (bytes, rest) = padded(from, width)?;
    let bits = bits_in(kind, bytes);
    Ok((Value::Number { kind, bits }, rest))
}

/// A value of one GUID.
fn set_value<'a>(from: Rest<'a>) -> Result<(Value<&'a [u8]>, Rest<'a>), Stop>
    ensures found { IfOk result (λ x. Takes (lists.value 0x0048) from.entry (seen x.0) x.1) }
    ensures valid { IfOk result (λ x. plain.IsValue (seen x.0)) }
    ensures fault { IfErr result (Refuses (lists.value 0x0048) from.entry) }
{
    let (set, rest) = guid_value(from)?;
    Ok((Value::Guid(set), rest))
}

/// A value of one text, or of bytes.
fn bytes_value<'a>(from: Rest<'a>, kind: Kind) -> Result<(Value<&'a [u8]>, Rest<'a>), Stop>
    requires { HasShape (kind_number kind) Shape.Bytes }
    ensures found { IfOk result (λ x. Takes (lists.value (kind_number kind)) from.entry (seen x.0) x.1) }
    ensures valid { IfOk result (λ x. plain.IsValue (seen x.0)) }
    ensures fault { IfErr result (Refuses (lists.value (kind_number kind)) from.entry) }
{
    let rest = one(from)?;
    let (bytes, rest) = text(rest, kind)?;
    Ok((Value::Bytes { kind, bytes }, rest))
}

/// A value of several numbers.
fn numbers_value<'a>(
    alloc: Global,
    from: Rest<'a>,
    kind: Kind,
    width: usize,
) -> Result<(Value<&'a [u8]>, Rest<'a>), Stop>
    requires { HasShape (kind_number kind) (Shape.Numbers width) }
    ensures found { IfOk result (λ x. Takes (lists.value (kind_number kind)) from.entry (seen x.0) x.1) }
    ensures valid { IfOk result (λ x. plain.IsValue (seen x.0)) }
    ensures fault { IfErr result (Refuses (lists.value (kind_number kind)) from.entry) }
{
    let (list, rest) = numbers_from(alloc, from, width)?;
    Ok((Value::Numbers { kind, list }, rest))
}

/// A value of several GUIDs.
fn sets_value<'a>(alloc: Global, from: Rest<'a>) -> Result<(Value<&'a [u8]>, Rest<'a>), Stop>
    ensures found { IfOk result (λ x. Takes (lists.value 0x1048) from.entry (seen x.0) x.1) }
    ensures valid { IfOk result (λ x. plain.IsValue (seen x.0)) }
    ensures fault { IfErr result (Refuses (lists.value 0x1048) from.entry) }
{
    let (list, rest) = guids_from(alloc, from)?;
    Ok((Value::Guids(list), rest))
}

/// A value of several texts; `single` is the kind of one.
fn parts_value<'a>(
    alloc: Global,
    from: Rest<'a>,
    kind: Kind,
    single: Kind,
) -> Result<(Value<&'a [u8]>, Rest<'a>), Stop>
    requires { HasShape (kind_number kind) (Shape.Parts single) }
    ensures found { IfOk result (λ x. Takes (lists.value (kind_number kind)) from.entry (seen x.0) x.1) }
    ensures valid { IfOk result (λ x. plain.IsValue (seen x.0)) }
    ensures fault { IfErr result (Refuses (lists.value (kind_number kind)) from.entry) }
{
    let (list, rest) = parts_from(alloc, from, single)?;
    Ok((Value::Parts { kind, list }, rest))
}

/// The value of a kind.
pub fn value<'a>(
    alloc: Global,
    from: Rest<'a>,
    kind: Kind,
) -> Result<(Value<&'a [u8]>, Rest<'a>), Stop>
    ensures found { IfOk result (λ x. Takes (lists.value (kind_number kind)) from.entry (seen x.0) x.1) }
    ensures valid { IfOk result (λ x. plain.IsValue (seen x.0)) }
    ensures fault { IfErr result (Refuses (lists.value (kind_number kind)) from.entry) }
{
    match kind.shape() {
        Shape::Number(width) => number_value(from, kind, width),
        Shape::Guid => set_value(from),
        Shape::Bytes => bytes_value(from, kind),
        Shape::Numbers(width) => numbers_value(alloc, from, kind, width),
        Shape::Guids => sets_value(alloc, from),
        Shape::Parts(single) => parts_value(alloc, from, kind, single),
    }
}
