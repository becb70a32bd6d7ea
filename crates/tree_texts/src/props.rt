//! Properties and recipients.
ghost use Rattle.std.specs.Prelude.{◌≤◌, ◌+◌, ◌++◌, codes};
ghost use Rattle.carrier_io.specs.Known.{Writes};
ghost use Rattle.text_model.specs.TreeTexts.{line, counted, prop_text, prop_lines, recipient_lines};

use crate::lines::{write_counted_line, write_indent};
use crate::values::write_value;
use carrier_io::{Blob, Failed, Sink, write_parts, write_pieces};
use msg_tree::Recipients;
use prop_names::print_key;
use prop_values::{Prop, Props};

/// Appends a property: its key, its kind and its value.
fn write_prop<B: Blob, W: Sink>(sink: &mut W, prop: &Prop<B>) -> Result<(), Failed>
    ensures { Writes (W.held sink.old) (W.held sink.new) (W.faults sink.old) (W.faults sink.new) result (prop_text prop.now) }
{
    print_key(&prop.key, sink)?;
    let kind = prop.value.kind().name();
    write_parts(sink, &[b" ", kind.as_bytes(), b" "])?;
    write_value(sink, &prop.value)
}

/// Appends the line of a property.
fn write_prop_line<B: Blob, W: Sink>(
    sink: &mut W,
    indent: usize,
    prop: &Prop<B>,
) -> Result<(), Failed>
    requires { indent ≤ 160 }
    ensures { Writes (W.held sink.old) (W.held sink.new) (W.faults sink.old) (W.faults sink.new) result (line indent (prop_text prop.now)) }
{
    write_indent(sink, indent)?;
    write_prop(sink, prop)?;
    write_pieces(sink, b"\n")
}

/// Appends the line of each property.
pub fn write_props<B: Blob, W: Sink>(
    sink: &mut W,
    indent: usize,
    props: &Props<B>,
) -> Result<(), Failed>
    requires { indent ≤ 160 }
    ensures { Writes (W.held sink.old) (W.held sink.new) (W.faults sink.old) (W.faults sink.new) result (prop_lines indent props.now) }
{
    for k in 0..props.len() {
        write_prop_line(sink, indent, props.get(k))?;
    }
    Ok(())
}

/// Appends the lines of the recipient at a place.
fn write_recipient<B: Blob, W: Sink>(
    sink: &mut W,
    indent: usize,
    k: usize,
    props: &Props<B>,
) -> Result<(), Failed>
    requires { indent ≤ 158 }
    ensures { Writes (W.held sink.old) (W.held sink.new) (W.faults sink.old) (W.faults sink.new) result (line indent (counted (codes "recipient") k) ++ prop_lines (indent + 2) props.now) }
{
    write_counted_line(sink, indent, b"recipient", k as u64)?;
    write_props(sink, indent + 2, props)
}

/// Appends the lines of each recipient.
pub fn write_recipients<B: Blob, W: Sink>(
    sink: &mut W,
    indent: usize,
    recipients: &Recipients<B>,
) -> Result<(), Failed>
    requires { indent ≤ 158 }
    ensures { Writes (W.held sink.old) (W.held sink.new) (W.faults sink.old) (W.faults sink.new) result (recipient_lines indent 0 recipients.now) }
{
    for k in 0..recipients.len() {
        write_recipient(sink, indent, k, recipients.get(k))?;
    }
    Ok(())
}
