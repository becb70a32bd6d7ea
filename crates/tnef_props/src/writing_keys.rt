//! Keys as they are written.
ghost use Rattle.std.specs.Prelude.{◌≡◌, ◌≤◌, [], ◌∷◌, ◌++◌, length, Contains};
ghost use Rattle.carrier_model.specs.Keys.{IsKey, IsName};
ghost use Rattle.carrier_model.specs.Bytes.{le32 as model_le32};
ghost use Rattle.tnef_model.specs.TnefCanonical as canon;
ghost use Rattle.carrier_model.specs.Bytes as octets;
ghost use Rattle.carrier_model.specs.Keys as keys;
ghost use Rattle.prop_names.specs.Meaning.{key_of, name_of};
ghost use Rattle.carrier_io.specs.Summed.{Sums};
ghost use Rattle.tnef_props.specs.Named.{label_field, HasKey};

use crate::short::{append_array, append_few_zeros};
use carrier_io::{Failed, Sink, Units, le16, le32, pad4};
use prop_names::{FIRST_NAMED, Key, Name, NameSet};

/// The id that stands for a name: its place among the names, from 8000 on.
fn id_of(names: &NameSet, name: &Name) -> u16
    requires known { Contains names.now (name_of name.now) }
    requires few { length names.now ≤ 32000 }
    ensures { result ≡ keys.id_of names.now (name_of name.now) }
{
    match names.position(name) {
        Some(place) => FIRST_NAMED + place as u16,
        None => unreachable!(),
    }
}

/// Appends a tag: the number of a kind, and an id.
pub fn append_tag<W: Sink>(sink: &mut W, id: u16, kind: u16) -> Result<u16, Failed>
    ensures { Sums (W.held sink.old) (W.held sink.new) (W.faults sink.old) (W.faults sink.new) result (canon.tag_bytes id kind) }
{
    let kind = le16(kind);
    let id = le16(id);
    append_array(sink, &[kind[0], kind[1], id[0], id[1]])
}

/// Appends units, each in two bytes.
fn append_units<W: Sink>(sink: &mut W, units: &Units) -> Result<u16, Failed>
    ensures { Sums (W.held sink.old) (W.held sink.new) (W.faults sink.old) (W.faults sink.new) result (octets.unit_bytes units.now) }
{
    let mut sum = 0u16;
    for k in 0..units.len() {
        sum = sum.wrapping_add(append_array(sink, &le16(*units.get(k)))?);
    }
    Ok(sum)
}

/// Appends units, a null and padding.
fn append_padded_units<W: Sink>(sink: &mut W, units: &Units) -> Result<u16, Failed>
    requires { length units.now ≤ 255 }
    ensures { Sums (W.held sink.old) (W.held sink.new) (W.faults sink.old) (W.faults sink.new) result (canon.zero_padded (octets.unit_bytes (units.now ++ 0 ∷ []))) }
{
    let text = append_units(sink, units)?;
    let zeros = append_few_zeros(sink, 2 + pad4(2 * (units.len() as u64 + 1)) as usize)?;
    Ok(text.wrapping_add(zeros))
}

/// Appends the text of a name: 1, its size in bytes with the null, and the units with padding.
fn append_text<W: Sink>(sink: &mut W, units: &Units) -> Result<u16, Failed>
    requires { length units.now ≤ 255 }
    ensures { Sums (W.held sink.old) (W.held sink.new) (W.faults sink.old) (W.faults sink.new) result (model_le32 1 ++ canon.with_size (octets.unit_bytes (units.now ++ 0 ∷ []))) }
{
    let size = le32(2 * (units.len() as u32 + 1));
    let head = append_array(sink, &[1, 0, 0, 0, size[0], size[1], size[2], size[3]])?;
    let text = append_padded_units(sink, units)?;
    Ok(head.wrapping_add(text))
}

/// Appends what a name has behind its property set.
fn append_label<W: Sink>(sink: &mut W, name: &Name) -> Result<u16, Failed>
    requires { IsName (name_of name.now) }
    ensures { Sums (W.held sink.old) (W.held sink.new) (W.faults sink.old) (W.faults sink.new) result (label_field (name_of name.now)) }
{
    match name {
        Name::Number { number, .. } => {
            let n = le32(*number);
            append_array(sink, &[0, 0, 0, 0, n[0], n[1], n[2], n[3]])
        }
        Name::Text(text) => append_text(sink, &text.units),
    }
}

/// Appends a name.
fn append_name<W: Sink>(sink: &mut W, name: &Name) -> Result<u16, Failed>
    requires { IsName (name_of name.now) }
    ensures { Sums (W.held sink.old) (W.held sink.new) (W.faults sink.old) (W.faults sink.new) result (canon.name_bytes (name_of name.now)) }
{
    let set = append_array(sink, &name.set().0)?;
    let label = append_label(sink, name)?;
    Ok(set.wrapping_add(label))
}

/// Appends a tag with the id that stands for a name, and the name.
fn append_named<W: Sink>(
    sink: &mut W,
    names: &NameSet,
    name: &Name,
    kind: u16,
) -> Result<u16, Failed>
    requires valid { IsName (name_of name.now) }
    requires known { Contains names.now (name_of name.now) }
    requires few { length names.now ≤ 32000 }
    ensures { Sums (W.held sink.old) (W.held sink.new) (W.faults sink.old) (W.faults sink.new) result (canon.tag_bytes (keys.id_of names.now (name_of name.now)) kind ++ canon.name_bytes (name_of name.now)) }
{
    let tag = append_tag(sink, id_of(names, name), kind)?;
    let rest = append_name(sink, name)?;
    Ok(tag.wrapping_add(rest))
}

/// Appends a key: a tag, and the name behind it where it is one.
pub fn append_key<W: Sink>(
    sink: &mut W,
    names: &NameSet,
    key: &Key,
    kind: u16,
) -> Result<u16, Failed>
    requires valid { IsKey (key_of key.now) }
    requires known { HasKey names.now (key_of key.now) }
    requires few { length names.now ≤ 32000 }
    ensures { Sums (W.held sink.old) (W.held sink.new) (W.faults sink.old) (W.faults sink.new) result (canon.key_bytes names.now (key_of key.now) kind) }
{
    match key {
        Key::Id(id) => append_tag(sink, *id, kind),
        Key::Named(name) => append_named(sink, names, name, kind),
    }
}
