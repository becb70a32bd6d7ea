//! Values of several elements.
ghost use Rattle.std.specs.Prelude.{◌≡◌, ◌<◌, ◌≤◌, ◌-◌, ◌++◌, [], length, get_or};
ghost use Rattle.carrier_io.specs.Known.{Writes};
ghost use Rattle.carrier_model.specs.Values.{IsValue, number_widths, numbers_widths, width_in};
ghost use Rattle.text_model.specs.ValueTexts.{with_commas, in_brackets};
ghost use Rattle.prop_values.specs.Kinds.{kind_number};
ghost use Rattle.prop_values.specs.Meaning.{value_of};
ghost use Rattle.tree_texts.specs.Elements.{elements_of, separator};

use crate::numbers::write_number;
use crate::quoted::write_bytes;
use carrier_io::{Blob, Failed, Sink, write_pieces};
use prop_names::print_guid;
use prop_values::{Kind, Value};

/// The kind of one element of a kind of several.
fn single_of(kind: Kind) -> Kind
    ensures number { 0x1000 ≤ kind_number kind → kind_number result ≡ kind_number kind - 0x1000 }
    ensures several { 0 < width_in numbers_widths (kind_number kind) → 0x1000 ≤ kind_number kind }
    ensures width { 0 < width_in numbers_widths (kind_number kind) → 0 < width_in number_widths (kind_number result) }
{
    match kind {
        Kind::MultipleInteger16 => Kind::Integer16,
        Kind::MultipleInteger32 => Kind::Integer32,
        Kind::MultipleFloating32 => Kind::Floating32,
        Kind::MultipleFloating64 => Kind::Floating64,
        Kind::MultipleCurrency => Kind::Currency,
        Kind::MultipleFloatingTime => Kind::FloatingTime,
        Kind::MultipleInteger64 => Kind::Integer64,
        Kind::MultipleString8 => Kind::String8,
        Kind::MultipleString => Kind::String,
        Kind::MultipleTime => Kind::Time,
        Kind::MultipleGuid => Kind::Guid,
        Kind::MultipleBinary => Kind::Binary,
        _ => kind,
    }
}

/// How many elements a value of several has.
fn element_count<B: Blob>(value: &Value<B>) -> usize
    ensures { result ≡ length (elements_of (value_of B.bytes value.now)) }
{
    match value {
        Value::Numbers { list, .. } => list.len(),
        Value::Guids(list) => list.len(),
        Value::Parts { list, .. } => list.len(),
        _ => 0,
    }
}

/// Appends the element at a place, counted from 0.
fn write_element<B: Blob, W: Sink>(sink: &mut W, value: &Value<B>, k: usize) -> Result<(), Failed>
    requires value { IsValue (value_of B.bytes value.now) }
    requires place { k < length (elements_of (value_of B.bytes value.now)) }
    ensures { Writes (W.held sink.old) (W.held sink.new) (W.faults sink.old) (W.faults sink.new) result (get_or (elements_of (value_of B.bytes value.now)) k []) }
{
    match value {
        Value::Numbers { kind, list } => write_number(sink, single_of(*kind), *list.get(k)),
        Value::Guids(list) => print_guid(list.get(k), sink),
        Value::Parts { kind, list } => write_bytes(sink, single_of(*kind), list.get(k)),
        _ => unreachable!(),
    }
}

/// Appends what stands between an element and the one before it.
fn write_separator<W: Sink>(sink: &mut W, k: usize) -> Result<(), Failed>
    ensures { Writes (W.held sink.old) (W.held sink.new) (W.faults sink.old) (W.faults sink.new) result (separator k) }
{
    if k == 0 {
        return Ok(());
    }
    write_pieces(sink, b", ")
}

/// Appends the element at a place, behind those before it.
fn write_next<B: Blob, W: Sink>(sink: &mut W, value: &Value<B>, k: usize) -> Result<(), Failed>
    requires value { IsValue (value_of B.bytes value.now) }
    requires place { k < length (elements_of (value_of B.bytes value.now)) }
    ensures { Writes (W.held sink.old) (W.held sink.new) (W.faults sink.old) (W.faults sink.new) result (separator k ++ get_or (elements_of (value_of B.bytes value.now)) k []) }
{
    write_separator(sink, k)?;
    write_element(sink, value, k)
}

/// Appends the elements with commas between them.
fn write_elements<B: Blob, W: Sink>(sink: &mut W, value: &Value<B>) -> Result<(), Failed>
    requires { IsValue (value_of B.bytes value.now) }
    ensures { Writes (W.held sink.old) (W.held sink.new) (W.faults sink.old) (W.faults sink.new) result (with_commas (elements_of (value_of B.bytes value.now))) }
{
    for k in 0..element_count(value) {
        write_next(sink, value, k)?;
    }
    Ok(())
}

/// Appends a value of several elements.
pub fn write_list<B: Blob, W: Sink>(sink: &mut W, value: &Value<B>) -> Result<(), Failed>
    requires { IsValue (value_of B.bytes value.now) }
    ensures { Writes (W.held sink.old) (W.held sink.new) (W.faults sink.old) (W.faults sink.new) result (in_brackets (elements_of (value_of B.bytes value.now))) }
{
    write_pieces(sink, b"[")?;
    write_elements(sink, value)?;
    write_pieces(sink, b"]")
}
