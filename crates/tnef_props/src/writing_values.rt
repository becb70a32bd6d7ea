//! Values as they are written.
ghost use Rattle.std.specs.Prelude.{◌≡◌, ◌+◌, ◌<◌, ◌≤◌, ◌++◌, ℕ, All, length, replicate, flat_map};
ghost use Rattle.tnef_model.specs.TnefCanonical as canon;
ghost use Rattle.carrier_model.specs.Values as plain;
ghost use Rattle.carrier_model.specs.Bytes.{le32 as model_le32};
ghost use Rattle.prop_values.specs.Kinds.{kind_number};
ghost use Rattle.prop_values.specs.Meaning.{value_of};
ghost use Rattle.carrier_io.specs.Summed.{Sums};
ghost use Rattle.tnef_props.specs.Written.{HasWidth, Fits, number_field, text_field, count_field, counted, content_field};

use crate::short::{append_array, append_few_zeros};
use crate::writing_keys::append_tag;
use carrier_io::{Blob, Failed, Numbers, Sink, append_blob, le16, le32, le64, pad4};
use prop_values::{Guids, Kind, Parts, Shape, Value};

/// Whether a number of the kind, or each of several, has eight bytes. Every other has two or four.
pub fn is_wide(kind: Kind) -> bool
    ensures number { 0 < plain.width_in plain.number_widths (kind_number kind) → HasWidth result (plain.width_in plain.number_widths (kind_number kind)) }
    ensures numbers { 0 < plain.width_in plain.numbers_widths (kind_number kind) → HasWidth result (plain.width_in plain.numbers_widths (kind_number kind)) }
{
    match kind.shape() {
        Shape::Number(width) => width == 8,
        Shape::Numbers(width) => width == 8,
        _ => false,
    }
}

/// Appends a number in eight or in four bytes.
fn append_number<W: Sink>(sink: &mut W, wide: bool, bits: u64) -> Result<u16, Failed>
    requires { Fits wide bits }
    ensures { Sums (W.held sink.old) (W.held sink.new) (W.faults sink.old) (W.faults sink.new) result (number_field wide bits) }
{
    if wide {
        append_array(sink, &le64(bits))
    } else {
        append_array(sink, &le32(bits as u32))
    }
}

/// Appends a text's bytes, its null, and zeros to a multiple of four.
fn append_padded<B: Blob, W: Sink>(sink: &mut W, null: usize, text: &B) -> Result<u16, Failed>
    requires null { null ≤ 2 }
    requires short { length (B.bytes text.now) < 0x4000_0000 }
    ensures { Sums (W.held sink.old) (W.held sink.new) (W.faults sink.old) (W.faults sink.new) result (canon.zero_padded (B.bytes text.now ++ replicate null 0)) }
{
    let bytes = append_blob(sink, text)?;
    let zeros = append_few_zeros(sink, null + pad4((text.len() + null) as u64) as usize)?;
    Ok(bytes.wrapping_add(zeros))
}

/// Appends a text: its size with the null, the bytes, the null, and padding.
fn append_text<B: Blob, W: Sink>(sink: &mut W, null: usize, text: &B) -> Result<u16, Failed>
    requires null { null ≤ 2 }
    requires short { length (B.bytes text.now) < 0x4000_0000 }
    ensures { Sums (W.held sink.old) (W.held sink.new) (W.faults sink.old) (W.faults sink.new) result (text_field null (B.bytes text.now)) }
{
    let size = append_array(sink, &le32((text.len() + null) as u32))?;
    let bytes = append_padded(sink, null, text)?;
    Ok(size.wrapping_add(bytes))
}

/// Appends a text with a count of one before it.
fn append_one_text<B: Blob, W: Sink>(sink: &mut W, null: usize, text: &B) -> Result<u16, Failed>
    requires null { null ≤ 2 }
    requires short { length (B.bytes text.now) < 0x4000_0000 }
    ensures { Sums (W.held sink.old) (W.held sink.new) (W.faults sink.old) (W.faults sink.new) result (model_le32 1 ++ text_field null (B.bytes text.now)) }
{
    let size = le32((text.len() + null) as u32);
    let head = append_array(sink, &[1, 0, 0, 0, size[0], size[1], size[2], size[3]])?;
    let bytes = append_padded(sink, null, text)?;
    Ok(head.wrapping_add(bytes))
}

/// Appends numbers, each in eight or in four bytes.
fn append_numbers<W: Sink>(sink: &mut W, wide: bool, list: &Numbers) -> Result<u16, Failed>
    requires { All (λ (n : ℕ). Fits wide n) list.now }
    ensures { Sums (W.held sink.old) (W.held sink.new) (W.faults sink.old) (W.faults sink.new) result (flat_map (number_field wide) list.now) }
{
    let mut sum = 0u16;
    for k in 0..list.len() {
        sum = sum.wrapping_add(append_number(sink, wide, *list.get(k))?);
    }
    Ok(sum)
}

/// Appends GUIDs.
fn append_guids<W: Sink>(sink: &mut W, list: &Guids) -> Result<u16, Failed>
    ensures { Sums (W.held sink.old) (W.held sink.new) (W.faults sink.old) (W.faults sink.new) result (flat_map (λ g. g) list.now) }
{
    let mut sum = 0u16;
    for k in 0..list.len() {
        sum = sum.wrapping_add(append_array(sink, &list.get(k).0)?);
    }
    Ok(sum)
}

/// Appends texts.
fn append_texts<B: Blob, W: Sink>(sink: &mut W, null: usize, list: &Parts<B>) -> Result<u16, Failed>
    requires null { null ≤ 2 }
    requires short { All (λ x. length x < 0x4000_0000) list.now }
    ensures { Sums (W.held sink.old) (W.held sink.new) (W.faults sink.old) (W.faults sink.new) result (flat_map (text_field null) list.now) }
{
    let mut sum = 0u16;
    for k in 0..list.len() {
        sum = sum.wrapping_add(append_text(sink, null, list.get(k))?);
    }
    Ok(sum)
}

/// How many elements a value says that it has; none where it says nothing.
fn count_of<B: Blob>(value: &Value<B>) -> Option<usize>
    ensures { result ≡ counted (value_of B.bytes value.now) }
{
    match value {
        Value::Number { .. } => None,
        Value::Guid(_) => None,
        Value::Bytes { .. } => Some(1),
        Value::Numbers { list, .. } => Some(list.len()),
        Value::Guids(list) => Some(list.len()),
        Value::Parts { list, .. } => Some(list.len()),
    }
}

/// Appends the count of a value's elements, where it says one.
fn append_count<B: Blob, W: Sink>(sink: &mut W, value: &Value<B>) -> Result<u16, Failed>
    requires { plain.IsValue (value_of B.bytes value.now) }
    ensures { Sums (W.held sink.old) (W.held sink.new) (W.faults sink.old) (W.faults sink.new) result (count_field (counted (value_of B.bytes value.now))) }
{
    match count_of(value) {
        Some(count) => append_array(sink, &le32(count as u32)),
        None => Ok(0),
    }
}

/// Appends a value's elements.
fn append_content<B: Blob, W: Sink>(sink: &mut W, value: &Value<B>) -> Result<u16, Failed>
    requires { plain.IsValue (value_of B.bytes value.now) }
    ensures { Sums (W.held sink.old) (W.held sink.new) (W.faults sink.old) (W.faults sink.new) result (content_field (value_of B.bytes value.now)) }
{
    match value {
        Value::Number { kind, bits } => append_number(sink, is_wide(*kind), *bits),
        Value::Guid(set) => append_array(sink, &set.0),
        Value::Bytes { kind, bytes } => append_text(sink, kind.null_size(), bytes),
        Value::Numbers { kind, list } => append_numbers(sink, is_wide(*kind), list),
        Value::Guids(list) => append_guids(sink, list),
        Value::Parts { kind, list } => append_texts(sink, kind.part_null_size(), list),
    }
}

/// Appends the count of a value's elements, where it says one, and the elements.
fn append_counted<B: Blob, W: Sink>(sink: &mut W, value: &Value<B>) -> Result<u16, Failed>
    requires { plain.IsValue (value_of B.bytes value.now) }
    ensures { Sums (W.held sink.old) (W.held sink.new) (W.faults sink.old) (W.faults sink.new) result (canon.value_bytes (value_of B.bytes value.now)) }
{
    let count = append_count(sink, value)?;
    let content = append_content(sink, value)?;
    Ok(count.wrapping_add(content))
}

/// Appends a value.
pub fn append_value<B: Blob, W: Sink>(sink: &mut W, value: &Value<B>) -> Result<u16, Failed>
    requires { plain.IsValue (value_of B.bytes value.now) }
    ensures { Sums (W.held sink.old) (W.held sink.new) (W.faults sink.old) (W.faults sink.new) result (canon.value_bytes (value_of B.bytes value.now)) }
{
    match value {
        Value::Bytes { kind, bytes } => append_one_text(sink, kind.null_size(), bytes),
        _ => append_counted(sink, value),
    }
}

/// Appends a number in eight or in four bytes, with the tag before it, as one piece.
fn append_tagged_number<W: Sink>(
    sink: &mut W,
    id: u16,
    kind: u16,
    wide: bool,
    bits: u64,
) -> Result<u16, Failed>
    requires { Fits wide bits }
    ensures { Sums (W.held sink.old) (W.held sink.new) (W.faults sink.old) (W.faults sink.new) result (canon.tag_bytes id kind ++ number_field wide bits) }
{
    let kind = le16(kind);
    let id = le16(id);
    if wide {
        let number = le64(bits);
        append_array(
            sink,
            &[
                kind[0], kind[1], id[0], id[1], number[0], number[1], number[2], number[3],
                number[4], number[5], number[6], number[7],
            ],
        )
    } else {
        let number = le32(bits as u32);
        append_array(
            sink,
            &[
                kind[0], kind[1], id[0], id[1], number[0], number[1], number[2], number[3],
            ],
        )
    }
}

/// Appends a tag, and a text with a count of one before it; what stands before the text's bytes goes in one piece.
fn append_tagged_text<B: Blob, W: Sink>(
    sink: &mut W,
    id: u16,
    kind: u16,
    null: usize,
    text: &B,
) -> Result<u16, Failed>
    requires null { null ≤ 2 }
    requires short { length (B.bytes text.now) < 0x4000_0000 }
    ensures { Sums (W.held sink.old) (W.held sink.new) (W.faults sink.old) (W.faults sink.new) result (canon.tag_bytes id kind ++ (model_le32 1 ++ text_field null (B.bytes text.now))) }
{
    let kind = le16(kind);
    let id = le16(id);
    let size = le32((text.len() + null) as u32);
    let head = append_array(
        sink,
        &[
            kind[0], kind[1], id[0], id[1], 1, 0, 0, 0, size[0], size[1], size[2], size[3],
        ],
    )?;
    let bytes = append_padded(sink, null, text)?;
    Ok(head.wrapping_add(bytes))
}

/// Appends a tag with an id, and a value.
pub fn append_unnamed<B: Blob, W: Sink>(
    sink: &mut W,
    id: u16,
    value: &Value<B>,
) -> Result<u16, Failed>
    requires { plain.IsValue (value_of B.bytes value.now) }
    ensures { Sums (W.held sink.old) (W.held sink.new) (W.faults sink.old) (W.faults sink.new) result (canon.tag_bytes id (plain.kind_of (value_of B.bytes value.now)) ++ canon.value_bytes (value_of B.bytes value.now)) }
{
    match value {
        Value::Number { kind, bits } => {
            append_tagged_number(sink, id, kind.number(), is_wide(*kind), *bits)
        }
        Value::Bytes { kind, bytes } => {
            append_tagged_text(sink, id, kind.number(), kind.null_size(), bytes)
        }
        _ => {
            let tag = append_tag(sink, id, value.kind().number())?;
            let rest = append_counted(sink, value)?;
            Ok(tag.wrapping_add(rest))
        }
    }
}
