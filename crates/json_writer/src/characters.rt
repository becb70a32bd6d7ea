//! Characters in JSON strings.
ghost use Rattle.std.specs.Prelude.{◌≡◌, ◌<◌, IfSome, unwrap_or};
ghost use Rattle.json.specs.Print.{escape_byte, escape_letter, escape, quoted};
ghost use Rattle.json_writer.specs.Counted.{Counts};

use crate::appending::append;
use carrier_io::{Failed, Sink};
use prop_names::lower_digits2;

/// The letter of a byte that has a short escape. [RFC 8259, section 7]
pub(crate) fn short_escape(byte: u8) -> Option<u8>
    ensures letter { unwrap_or result 0 ≡ escape_letter byte }
    ensures some { IfSome result (λ letter. 0 < letter) }
{
    match byte {
        b'"' => Some(b'"'),
        b'\\' => Some(b'\\'),
        0x08 => Some(b'b'),
        0x09 => Some(b't'),
        0x0a => Some(b'n'),
        0x0c => Some(b'f'),
        0x0d => Some(b'r'),
        _ => None,
    }
}

/// Appends what stands for a control character that has no short escape.
fn append_control<W: Sink>(sink: &mut W, count: &mut u64, byte: u8) -> Result<(), Failed>
    requires small { byte < 32 }
    requires long { escape_letter byte ≡ 0 }
    ensures { Counts (W.held sink.old) (W.held sink.new) (W.faults sink.old) (W.faults sink.new) count.old count.new result (escape_byte byte) }
{
    let [high, low] = lower_digits2(byte);
    append(sink, count, &[b'\\', b'u', b'0', b'0', high, low])
}

/// Appends what stands for a byte of a string.
#[inline(always)]
fn append_byte<W: Sink>(sink: &mut W, count: &mut u64, byte: u8) -> Result<(), Failed>
    ensures { Counts (W.held sink.old) (W.held sink.new) (W.faults sink.old) (W.faults sink.new) count.old count.new result (escape_byte byte) }
{
    match short_escape(byte) {
        Some(letter) => append(sink, count, &[b'\\', letter]),
        None if byte < 0x20 => append_control(sink, count, byte),
        None => append(sink, count, &[byte]),
    }
}

/// Appends what stands for the bytes of a string.
fn append_escaped<W: Sink>(sink: &mut W, count: &mut u64, bytes: &[u8]) -> Result<(), Failed>
    ensures { Counts (W.held sink.old) (W.held sink.new) (W.faults sink.old) (W.faults sink.new) count.old count.new result (escape bytes.now) }
{
    for byte in bytes {
        append_byte(sink, count, *byte)?;
    }
    Ok(())
}

/// Appends a string by its bytes in UTF-8. Failed says that the sink failed. [RFC 8259, section 7]
pub fn append_string<W: Sink>(sink: &mut W, count: &mut u64, text: &[u8]) -> Result<(), Failed>
    ensures { Counts (W.held sink.old) (W.held sink.new) (W.faults sink.old) (W.faults sink.new) count.old count.new result (quoted text.now) }
{
    append(sink, count, b"\"")?;
    append_escaped(sink, count, text)?;
    append(sink, count, b"\"")
}
