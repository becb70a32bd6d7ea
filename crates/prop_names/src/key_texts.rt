//! Keys in print.
ghost use Rattle.std.specs.Prelude.{◌∷◌};
ghost use Rattle.carrier_model.specs.KeyTexts.{key_text, name_text, label_text, set_text, guid_text, quoted_text, unit_text, hex_digits, upper};
ghost use Rattle.std.specs.List.{flat_map};
ghost use Rattle.carrier_io.specs.Known.{Writes};
ghost use Rattle.prop_names.specs.Meaning.{name_of, key_of};

use crate::digits::{upper_digits4, upper_digits8};
use crate::keys::Key;
use crate::labels::set_label;
use crate::names::{Guid, Name};
use carrier_io::{Failed, Sink, Units, write_pieces};
use uuid::Uuid;

/// Appends the key: an id as four digits; a name as its set, a slash, and its number as eight digits or its text in
/// quotes. A failure was counted by the sink.
pub fn print_key<W: Sink>(key: &Key, sink: &mut W) -> Result<(), Failed>
    ensures { Writes (W.held sink.old) (W.held sink.new) (W.faults sink.old) (W.faults sink.new) result (key_text (key_of key.now)) }
{
    match key {
        Key::Id(number) => write_pieces(sink, &upper_digits4(*number)),
        Key::Named(name) => print_name(name, sink),
    }
}

fn print_name<W: Sink>(name: &Name, sink: &mut W) -> Result<(), Failed>
    ensures { Writes (W.held sink.old) (W.held sink.new) (W.faults sink.old) (W.faults sink.new) result (name_text (name_of name.now)) }
{
    print_set(&name.set(), sink)?;
    write_pieces(sink, b"/")?;
    print_label(name, sink)
}

/// Appends the label of a property set, or its GUID.
fn print_set<W: Sink>(set: &Guid, sink: &mut W) -> Result<(), Failed>
    ensures { Writes (W.held sink.old) (W.held sink.new) (W.faults sink.old) (W.faults sink.new) result (set_text set.now.0) }
{
    match set_label(set) {
        Some(label) => write_pieces(sink, label.as_bytes()),
        None => print_guid(set, sink),
    }
}

/// Appends a GUID in braces, in lower case. A failure was counted by the sink.
pub fn print_guid<W: Sink>(set: &Guid, sink: &mut W) -> Result<(), Failed>
    ensures { Writes (W.held sink.old) (W.held sink.new) (W.faults sink.old) (W.faults sink.new) result (guid_text set.now.0) }
{
    let mut buffer = Uuid::encode_buffer();
    let text = Uuid::from_bytes_le(set.0)
        .braced()
        .encode_lower(&mut buffer);
    write_pieces(sink, text.as_bytes())
}

fn print_label<W: Sink>(name: &Name, sink: &mut W) -> Result<(), Failed>
    ensures { Writes (W.held sink.old) (W.held sink.new) (W.faults sink.old) (W.faults sink.new) result (label_text (name_of name.now)) }
{
    match name {
        Name::Number { number, .. } => write_pieces(sink, &upper_digits8(*number)),
        Name::Text(text) => print_quoted(&text.units, sink),
    }
}

fn print_quoted<W: Sink>(units: &Units, sink: &mut W) -> Result<(), Failed>
    ensures { Writes (W.held sink.old) (W.held sink.new) (W.faults sink.old) (W.faults sink.new) result (quoted_text units.now) }
{
    write_pieces(sink, b"\"")?;
    print_units(units.as_slice(), sink)?;
    write_pieces(sink, b"\"")
}

fn print_units<W: Sink>(units: &[u16], sink: &mut W) -> Result<(), Failed>
    ensures { Writes (W.held sink.old) (W.held sink.new) (W.faults sink.old) (W.faults sink.new) result (flat_map unit_text units.now) }
{
    for unit in units {
        print_unit(*unit, sink)?;
    }
    Ok(())
}

/// Appends a unit of a quoted text. A failure was counted by the sink.
pub fn print_unit<W: Sink>(unit: u16, sink: &mut W) -> Result<(), Failed>
    ensures { Writes (W.held sink.old) (W.held sink.new) (W.faults sink.old) (W.faults sink.new) result (unit_text unit) }
{
    match unit {
        0x22 | 0x5c => print_escape(unit, sink),
        0x20..=0x7e => write_pieces(sink, &[unit as u8]),
        _ => print_escape(unit, sink),
    }
}

fn print_escape<W: Sink>(unit: u16, sink: &mut W) -> Result<(), Failed>
    ensures { Writes (W.held sink.old) (W.held sink.new) (W.faults sink.old) (W.faults sink.new) result (0x5C ∷ hex_digits upper 4 unit) }
{
    let [first, second, third, fourth] = upper_digits4(unit);
    write_pieces(sink, &[b'\\', first, second, third, fourth])
}
