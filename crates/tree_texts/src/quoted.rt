//! Texts in quotes, and the first bytes of a Binary.
ghost use Rattle.std.specs.Prelude.{◌≡◌, ◌∷◌, ◌++◌, OnOk, take};
ghost use Rattle.std.specs.List.{flat_map};
ghost use Rattle.carrier_io.specs.Known.{Writes};
ghost use Rattle.carrier_model.specs.Bytes.{units_of};
ghost use Rattle.carrier_model.specs.KeyTexts.{hex_digits, lower, upper, quoted_text, unit_text};
ghost use Rattle.text_model.specs.ValueTexts.{character_text, quoted_bytes, binary_text, bytes_text, front_text, SHOWN};
ghost use Rattle.prop_values.specs.Kinds.{kind_number};
ghost use Rattle.tree_texts.specs.Halves.{kept, kept_behind, half_kept, half_text};

use carrier_io::{Blob, Failed, Sink, write_parts, write_pieces};
use prop_names::{lower_digits2, print_unit, upper_digits2, write_decimal};
use prop_values::Kind;

/// How many bytes of a Binary are shown.
const MOST_SHOWN: usize = 32;

/// Appends a byte that does not stand for itself.
fn write_escaped<W: Sink>(sink: &mut W, byte: u8) -> Result<(), Failed>
    ensures { Writes (W.held sink.old) (W.held sink.new) (W.faults sink.old) (W.faults sink.new) result (0x5C ∷ hex_digits upper 2 byte) }
{
    write_parts(sink, &[b"\\", &upper_digits2(byte)])
}

/// Appends a byte of a text of 8-bit characters.
fn write_character<W: Sink>(sink: &mut W, byte: u8) -> Result<(), Failed>
    ensures { Writes (W.held sink.old) (W.held sink.new) (W.faults sink.old) (W.faults sink.new) result (character_text byte) }
{
    match byte {
        0x22 | 0x5c => write_escaped(sink, byte),
        0x20..=0x7e => write_pieces(sink, &[byte]),
        _ => write_escaped(sink, byte),
    }
}

/// Appends the characters of one piece.
fn write_characters<W: Sink>(sink: &mut W, bytes: &[u8]) -> Result<(), Failed>
    ensures { Writes (W.held sink.old) (W.held sink.new) (W.faults sink.old) (W.faults sink.new) result (flat_map character_text bytes.now) }
{
    for byte in bytes {
        write_character(sink, *byte)?;
    }
    Ok(())
}

/// Appends the characters of all pieces.
fn write_all_characters<B: Blob, W: Sink>(sink: &mut W, text: &B) -> Result<(), Failed>
    ensures { Writes (W.held sink.old) (W.held sink.new) (W.faults sink.old) (W.faults sink.new) result (flat_map character_text (B.bytes text.now)) }
{
    for k in 0..text.pieces() {
        write_characters(sink, text.piece(k))?;
    }
    Ok(())
}

/// Appends a text of 8-bit characters in quotes.
fn write_text8<B: Blob, W: Sink>(sink: &mut W, text: &B) -> Result<(), Failed>
    ensures { Writes (W.held sink.old) (W.held sink.new) (W.faults sink.old) (W.faults sink.new) result (quoted_bytes (B.bytes text.now)) }
{
    write_pieces(sink, b"\"")?;
    write_all_characters(sink, text)?;
    write_pieces(sink, b"\"")
}

/// Takes the next byte of 16-bit units, the low one of each first, and appends a unit that it completes.
fn write_half<W: Sink>(sink: &mut W, low: &mut Option<u8>, byte: u8) -> Result<(), Failed>
    ensures written { Writes (W.held sink.old) (W.held sink.new) (W.faults sink.old) (W.faults sink.new) result (half_text low.old byte) }
    ensures low { low.new ≡ half_kept low.old byte }
{
    match *low {
        None => {
            *low = Some(byte);
            Ok(())
        }
        Some(first) => {
            *low = None;
            print_unit(u16::from_le_bytes([first, byte]), sink)
        }
    }
}

/// Appends the units of one piece, and keeps the low byte of one that it does not complete.
fn write_halves<W: Sink>(sink: &mut W, low: &mut Option<u8>, bytes: &[u8]) -> Result<(), Failed>
    ensures written { Writes (W.held sink.old) (W.held sink.new) (W.faults sink.old) (W.faults sink.new) result (flat_map unit_text (units_of (kept low.old ++ bytes.now))) }
    ensures low { OnOk result (low.new ≡ kept_behind low.old bytes.now) }
{
    for byte in bytes {
        write_half(sink, low, *byte)?;
    }
    Ok(())
}

/// Appends the units of all pieces.
fn write_units<B: Blob, W: Sink>(sink: &mut W, text: &B) -> Result<(), Failed>
    ensures { Writes (W.held sink.old) (W.held sink.new) (W.faults sink.old) (W.faults sink.new) result (flat_map unit_text (units_of (B.bytes text.now))) }
{
    let mut low = None;
    for k in 0..text.pieces() {
        write_halves(sink, &mut low, text.piece(k))?;
    }
    Ok(())
}

/// Appends a text of 16-bit units in quotes.
fn write_text16<B: Blob, W: Sink>(sink: &mut W, text: &B) -> Result<(), Failed>
    ensures { Writes (W.held sink.old) (W.held sink.new) (W.faults sink.old) (W.faults sink.new) result (quoted_text (units_of (B.bytes text.now))) }
{
    write_pieces(sink, b"\"")?;
    write_units(sink, text)?;
    write_pieces(sink, b"\"")
}

/// Appends bytes in digits.
fn write_digits<W: Sink>(sink: &mut W, bytes: &[u8]) -> Result<(), Failed>
    ensures { Writes (W.held sink.old) (W.held sink.new) (W.faults sink.old) (W.faults sink.new) result (flat_map (hex_digits lower 2) bytes.now) }
{
    for byte in bytes {
        write_pieces(sink, &lower_digits2(*byte))?;
    }
    Ok(())
}

/// Appends so many of the first bytes in digits. The pieces behind them are not looked at.
fn write_first<B: Blob, W: Sink>(sink: &mut W, blob: &B, most: usize) -> Result<(), Failed>
    ensures { Writes (W.held sink.old) (W.held sink.new) (W.faults sink.old) (W.faults sink.new) result (flat_map (hex_digits lower 2) (take most (B.bytes blob.now))) }
{
    let mut left = most;
    for k in 0..blob.pieces() {
        if left == 0 {
            return Ok(());
        }
        let piece = blob.piece(k);
        let count = piece.len().min(left);
        write_digits(sink, &piece[..count])?;
        left -= count;
    }
    Ok(())
}

/// Appends the bytes of a Binary that are shown.
fn write_front<B: Blob, W: Sink>(sink: &mut W, blob: &B) -> Result<(), Failed>
    ensures { Writes (W.held sink.old) (W.held sink.new) (W.faults sink.old) (W.faults sink.new) result (front_text (take SHOWN (B.bytes blob.now))) }
{
    if blob.len() == 0 {
        return Ok(());
    }
    write_pieces(sink, b" ")?;
    write_first(sink, blob, MOST_SHOWN)
}

/// Appends how many bytes a Binary has, and the first of them.
fn write_binary<B: Blob, W: Sink>(sink: &mut W, blob: &B) -> Result<(), Failed>
    ensures { Writes (W.held sink.old) (W.held sink.new) (W.faults sink.old) (W.faults sink.new) result (binary_text (B.bytes blob.now)) }
{
    write_decimal(sink, blob.len() as u64)?;
    write_pieces(sink, b" bytes")?;
    write_front(sink, blob)
}

/// Appends a text or a Binary, by its kind. A failure was counted by the sink.
pub fn write_bytes<B: Blob, W: Sink>(sink: &mut W, kind: Kind, bytes: &B) -> Result<(), Failed>
    ensures { Writes (W.held sink.old) (W.held sink.new) (W.faults sink.old) (W.faults sink.new) result (bytes_text (kind_number kind) (B.bytes bytes.now)) }
{
    match kind {
        Kind::String8 => write_text8(sink, bytes),
        Kind::String => write_text16(sink, bytes),
        _ => write_binary(sink, bytes),
    }
}
