//! Bytes, texts and names.
ghost use Rattle.std.specs.Prelude.{◌<◌, ◌^◌, All};
ghost use Rattle.serde_json.specs.Written.{compact_text};
ghost use Rattle.json_model.specs.ByteTrees.{AreBytes};
ghost use Rattle.json_model.specs.Properties.{hex_json};
ghost use Rattle.json_model.specs.Texts.{text_json, name_json};
ghost use Rattle.json_writer.specs.Counted.{Counts};

use carrier_io::{Blob, Failed, Sink};
use json_writer::{append_digits, append_name, append_text};
use prop_names::Guid;

/// A look at a piece, whose bytes are bytes.
fn look_at(bytes: &[u8])
    ensures { AreBytes bytes.now }
{
    let _ = bytes;
}

/// A look at each piece of a blob.
fn look_through<B: Blob>(blob: &B)
    ensures { AreBytes (B.bytes blob.now) }
{
    for k in 0..blob.pieces() {
        look_at(blob.piece(k));
    }
}

/// Appends a string of a blob's digits.
pub fn write_digits<B: Blob, W: Sink>(sink: &mut W, count: &mut u64, blob: &B) -> Result<(), Failed>
    ensures json { Counts (W.held sink.old) (W.held sink.new) (W.faults sink.old) (W.faults sink.new) count.old count.new result (compact_text (hex_json (B.bytes blob.now))) }
    ensures bytes { AreBytes (B.bytes blob.now) }
{
    look_through(blob);
    append_digits(sink, count, blob)
}

/// Appends a string of a GUID's digits.
pub fn write_guid<W: Sink>(sink: &mut W, count: &mut u64, guid: &Guid) -> Result<(), Failed>
    ensures json { Counts (W.held sink.old) (W.held sink.new) (W.faults sink.old) (W.faults sink.new) count.old count.new result (compact_text (hex_json guid.now.0)) }
    ensures bytes { AreBytes guid.now.0 }
{
    write_digits(sink, count, &guid.0.as_slice())
}

/// Appends a text of 16-bit units.
pub fn write_text<B: Blob, W: Sink>(sink: &mut W, count: &mut u64, text: &B) -> Result<(), Failed>
    ensures json { Counts (W.held sink.old) (W.held sink.new) (W.faults sink.old) (W.faults sink.new) count.old count.new result (compact_text (text_json (B.bytes text.now))) }
    ensures bytes { AreBytes (B.bytes text.now) }
{
    look_through(text);
    append_text(sink, count, text)
}

/// Appends a name by its units.
pub fn write_name<W: Sink>(sink: &mut W, count: &mut u64, units: &[u16]) -> Result<(), Failed>
    ensures json { Counts (W.held sink.old) (W.held sink.new) (W.faults sink.old) (W.faults sink.new) count.old count.new result (compact_text (name_json units.now)) }
    ensures units { All (λ unit. unit < 2 ^ 16) units.now }
{
    append_name(sink, count, units)
}
