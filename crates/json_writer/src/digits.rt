//! Bytes as digits.
ghost use Rattle.std.specs.Prelude.{◌≡◌, ◌≤◌, ◌<◌, ◌+◌, ◌*◌, ◌++◌, ◌∷◌, [], length, take};
ghost use Rattle.json_model.specs.Digits.{hex};
ghost use Rattle.json_model.specs.Properties.{hex_json};
ghost use Rattle.serde_json.specs.Written.{compact_text};
ghost use Rattle.json_writer.specs.Counted.{Counts};

use crate::appending::append;
use carrier_io::{Blob, Failed, Sink};
use prop_names::lower_digits2;

/// How many bytes become digits at a time.
const CHUNK: usize = 256;

/// How many digits these are.
const DIGITS: usize = 2 * CHUNK;

/// Puts two digits for a byte at its place.
#[inline(always)]
fn put_digits(digits: &mut [u8; DIGITS], k: usize, byte: u8)
    requires { k < CHUNK }
    ensures { take (2 * k + 2) digits.new ≡ take (2 * k) digits.old ++ hex (byte ∷ []) }
{
    digits[2 * k..2 * k + 2].copy_from_slice(&lower_digits2(byte));
}

/// Appends the digits of a few bytes.
fn append_few<W: Sink>(sink: &mut W, count: &mut u64, bytes: &[u8]) -> Result<(), Failed>
    requires { length bytes.now ≤ CHUNK }
    ensures { Counts (W.held sink.old) (W.held sink.new) (W.faults sink.old) (W.faults sink.new) count.old count.new result (hex bytes.now) }
{
    let mut digits = [0; DIGITS];
    for k in 0..bytes.len() {
        put_digits(&mut digits, k, bytes[k]);
    }
    append(sink, count, &digits[..2 * bytes.len()])
}

/// Appends the digits of one piece.
pub(crate) fn append_pairs<W: Sink>(
    sink: &mut W,
    count: &mut u64,
    bytes: &[u8],
) -> Result<(), Failed>
    ensures { Counts (W.held sink.old) (W.held sink.new) (W.faults sink.old) (W.faults sink.new) count.old count.new result (hex bytes.now) }
{
    let mut rest = bytes;
    while !rest.is_empty() {
        let (few, after) = rest.split_at(rest.len().min(CHUNK));
        append_few(sink, count, few)?;
        rest = after;
    }
    Ok(())
}

/// Appends the digits of all pieces.
pub(crate) fn append_all_pairs<B: Blob, W: Sink>(
    sink: &mut W,
    count: &mut u64,
    blob: &B,
) -> Result<(), Failed>
    ensures { Counts (W.held sink.old) (W.held sink.new) (W.faults sink.old) (W.faults sink.new) count.old count.new result (hex (B.bytes blob.now)) }
{
    for k in 0..blob.pieces() {
        append_pairs(sink, count, blob.piece(k))?;
    }
    Ok(())
}

/// Appends a string of a blob's bytes, two digits a byte, in lower case. Failed says that the sink failed.
pub fn append_digits<B: Blob, W: Sink>(
    sink: &mut W,
    count: &mut u64,
    blob: &B,
) -> Result<(), Failed>
    ensures { Counts (W.held sink.old) (W.held sink.new) (W.faults sink.old) (W.faults sink.new) count.old count.new result (compact_text (hex_json (B.bytes blob.now))) }
{
    append(sink, count, b"\"")?;
    append_all_pairs(sink, count, blob)?;
    append(sink, count, b"\"")
}
