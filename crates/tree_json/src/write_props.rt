//! Properties and lists of them.
ghost use Rattle.std.specs.Prelude.{◌-◌, map, OnOk};
ghost use Rattle.std.specs.List.{AllByRecursion};
ghost use Rattle.carrier_model.specs.Keys as keys;
ghost use Rattle.carrier_model.specs.Sorted.{IsStrictlySorted};
ghost use Rattle.carrier_model.specs.Values.{prop_cmp};
ghost use Rattle.json_model.specs.ByteTrees.{AreBytes, ValueHasBytes};
ghost use Rattle.json_model.specs.Properties.{key_json, bytes_json, value_json, prop_json, props_json, number_json, hex_json, listed_json};
ghost use Rattle.json_writer.specs.Counted.{Counts};
ghost use Rattle.serde_json.specs.Written.{compact_text};
ghost use Rattle.prop_names.specs.Meaning.{name_of, key_of};
ghost use Rattle.prop_values.specs.Kinds.{kind_number};
ghost use Rattle.prop_values.specs.Meaning.{value_of};
ghost use Rattle.tree_json.specs.Wholes.{IsWholeKey, IsWholeProp, IsWholeList};

use crate::write_parts::{write_digits, write_guid, write_name, write_text};
use carrier_io::{Blob, Failed, Numbers, Sink};
use json_writer::{append, append_number, append_string, separator};
use prop_names::{Guid, Key, Name, upper_digits4};
use prop_values::{Guids, Kind, Parts, Prop, Props, Value};

/// The kind of a text of 16-bit units. [MS-OXCDATA 2.11.1]
const STRING: u16 = 0x001f;

/// How far the kinds of several values are above those of one.
const MULTIPLE: u16 = 0x1000;

/// Appends a name of a number: its set and its number.
fn write_numbered<W: Sink>(
    sink: &mut W,
    count: &mut u64,
    set: &Guid,
    number: u32,
) -> Result<(), Failed>
    ensures json { Counts (W.held sink.old) (W.held sink.new) (W.faults sink.old) (W.faults sink.new) count.old count.new result (compact_text (key_json (keys.named (keys.numbered set.now.0 number)))) }
    ensures whole { OnOk result (IsWholeKey (keys.named (keys.numbered set.now.0 number))) }
{
    append(sink, count, b"{\"number\":")?;
    append_number(sink, count, u64::from(number))?;
    append(sink, count, b",\"set\":")?;
    write_guid(sink, count, set)?;
    append(sink, count, b"}")
}

/// Appends a name of a text: its set and its text.
fn write_texted<W: Sink>(
    sink: &mut W,
    count: &mut u64,
    set: &Guid,
    text: &[u16],
) -> Result<(), Failed>
    ensures json { Counts (W.held sink.old) (W.held sink.new) (W.faults sink.old) (W.faults sink.new) count.old count.new result (compact_text (key_json (keys.named (keys.texted set.now.0 text.now)))) }
    ensures whole { OnOk result (IsWholeKey (keys.named (keys.texted set.now.0 text.now))) }
{
    append(sink, count, b"{\"set\":")?;
    write_guid(sink, count, set)?;
    append(sink, count, b",\"text\":")?;
    write_name(sink, count, text)?;
    append(sink, count, b"}")
}

/// Appends a name.
fn write_named<W: Sink>(sink: &mut W, count: &mut u64, name: &Name) -> Result<(), Failed>
    ensures json { Counts (W.held sink.old) (W.held sink.new) (W.faults sink.old) (W.faults sink.new) count.old count.new result (compact_text (key_json (keys.named (name_of name.now)))) }
    ensures whole { OnOk result (IsWholeKey (keys.named (name_of name.now))) }
{
    match name {
        Name::Number { set, number } => write_numbered(sink, count, set, *number),
        Name::Text(name) => write_texted(sink, count, &name.set, name.units.as_slice()),
    }
}

/// Appends an id, as four digits, or a name.
fn write_key<W: Sink>(sink: &mut W, count: &mut u64, key: &Key) -> Result<(), Failed>
    ensures json { Counts (W.held sink.old) (W.held sink.new) (W.faults sink.old) (W.faults sink.new) count.old count.new result (compact_text (key_json (key_of key.now))) }
    ensures whole { OnOk result (IsWholeKey (key_of key.now)) }
{
    match key {
        Key::Id(id) => append_string(sink, count, &upper_digits4(*id)),
        Key::Named(name) => write_named(sink, count, name),
    }
}

/// Appends the bytes of a kind: a String is a text, others are digits.
fn write_bytes<B: Blob, W: Sink>(
    sink: &mut W,
    count: &mut u64,
    kind: u16,
    bytes: &B,
) -> Result<(), Failed>
    ensures json { Counts (W.held sink.old) (W.held sink.new) (W.faults sink.old) (W.faults sink.new) count.old count.new result (compact_text (bytes_json kind (B.bytes bytes.now))) }
    ensures bytes { AreBytes (B.bytes bytes.now) }
{
    if kind == STRING {
        write_text(sink, count, bytes)
    } else {
        write_digits(sink, count, bytes)
    }
}

fn write_numbers<W: Sink>(sink: &mut W, count: &mut u64, list: &Numbers) -> Result<(), Failed>
    ensures { Counts (W.held sink.old) (W.held sink.new) (W.faults sink.old) (W.faults sink.new) count.old count.new result (compact_text (listed_json (map number_json list.now))) }
{
    append(sink, count, b"[")?;
    for k in 0..list.len() {
        append(sink, count, separator(k > 0))?;
        append_number(sink, count, *list.get(k))?;
    }
    append(sink, count, b"]")
}

fn write_guids<W: Sink>(sink: &mut W, count: &mut u64, list: &Guids) -> Result<(), Failed>
    ensures json { Counts (W.held sink.old) (W.held sink.new) (W.faults sink.old) (W.faults sink.new) count.old count.new result (compact_text (listed_json (map hex_json list.now))) }
    ensures bytes { OnOk result (AllByRecursion AreBytes list.now) }
{
    append(sink, count, b"[")?;
    for k in 0..list.len() {
        append(sink, count, separator(k > 0))?;
        write_guid(sink, count, list.get(k))?;
    }
    append(sink, count, b"]")
}

/// Appends several texts or binaries, each of a kind.
fn write_each<B: Blob, W: Sink>(
    sink: &mut W,
    count: &mut u64,
    kind: u16,
    list: &Parts<B>,
) -> Result<(), Failed>
    ensures json { Counts (W.held sink.old) (W.held sink.new) (W.faults sink.old) (W.faults sink.new) count.old count.new result (compact_text (listed_json (map (bytes_json kind) list.now))) }
    ensures bytes { OnOk result (AllByRecursion AreBytes list.now) }
{
    append(sink, count, b"[")?;
    for k in 0..list.len() {
        append(sink, count, separator(k > 0))?;
        write_bytes(sink, count, kind, list.get(k))?;
    }
    append(sink, count, b"]")
}

/// Appends the value of a kind of several texts or binaries.
fn write_parts<B: Blob, W: Sink>(
    sink: &mut W,
    count: &mut u64,
    kind: Kind,
    list: &Parts<B>,
) -> Result<(), Failed>
    ensures json { Counts (W.held sink.old) (W.held sink.new) (W.faults sink.old) (W.faults sink.new) count.old count.new result (compact_text (listed_json (map (bytes_json (kind_number kind - 0x1000)) list.now))) }
    ensures bytes { OnOk result (AllByRecursion AreBytes list.now) }
{
    write_each(sink, count, kind.number().saturating_sub(MULTIPLE), list)
}

/// Appends a value of any kind.
fn write_value<B: Blob, W: Sink>(
    sink: &mut W,
    count: &mut u64,
    value: &Value<B>,
) -> Result<(), Failed>
    ensures json { Counts (W.held sink.old) (W.held sink.new) (W.faults sink.old) (W.faults sink.new) count.old count.new result (compact_text (value_json (value_of B.bytes value.now))) }
    ensures bytes { OnOk result (ValueHasBytes (value_of B.bytes value.now)) }
{
    match value {
        Value::Number { bits, .. } => append_number(sink, count, *bits),
        Value::Guid(set) => write_guid(sink, count, set),
        Value::Bytes { kind, bytes } => write_bytes(sink, count, kind.number(), bytes),
        Value::Numbers { list, .. } => write_numbers(sink, count, list),
        Value::Guids(list) => write_guids(sink, count, list),
        Value::Parts { kind, list } => write_parts(sink, count, *kind, list),
    }
}

/// Appends a property: its key, its kind and its value.
fn write_prop<B: Blob, W: Sink>(sink: &mut W, count: &mut u64, prop: &Prop<B>) -> Result<(), Failed>
    ensures json { Counts (W.held sink.old) (W.held sink.new) (W.faults sink.old) (W.faults sink.new) count.old count.new result (compact_text (prop_json prop.now)) }
    ensures whole { OnOk result (IsWholeProp prop.now) }
{
    append(sink, count, b"{\"key\":")?;
    write_key(sink, count, &prop.key)?;
    append(sink, count, b",\"kind\":")?;
    append_string(sink, count, prop.value.kind().name().as_bytes())?;
    append(sink, count, b",\"value\":")?;
    write_value(sink, count, &prop.value)?;
    append(sink, count, b"}")
}

/// A look into a list, which is in order.
fn look_into<B: Blob>(props: &Props<B>)
    ensures { IsStrictlySorted prop_cmp props.now }
{
    props.find(&Key::Id(0), Kind::Integer16);
}

/// Appends a list of properties.
pub fn write_props<B: Blob, W: Sink>(
    sink: &mut W,
    count: &mut u64,
    props: &Props<B>,
) -> Result<(), Failed>
    ensures json { Counts (W.held sink.old) (W.held sink.new) (W.faults sink.old) (W.faults sink.new) count.old count.new result (compact_text (props_json props.now)) }
    ensures whole { OnOk result (IsWholeList props.now) }
{
    look_into(props);
    append(sink, count, b"[")?;
    for k in 0..props.len() {
        append(sink, count, separator(k > 0))?;
        write_prop(sink, count, props.get(k))?;
    }
    append(sink, count, b"]")
}
