//! Texts: strings where their units are well-formed, and else their bytes as digits. [RFC 8259, section 8]
ghost use Rattle.std.specs.Prelude.{◌≡◌, ◌∷◌, ◌++◌, [], ℕ, List, None, OnOk, codes};
ghost use Rattle.carrier_model.specs.Bytes.{units_of, unit_bytes};
ghost use Rattle.serde_json.specs.Data.{object, member, no_members};
ghost use Rattle.serde_json.specs.Written.{compact_text};
ghost use Rattle.json_model.specs.Digits.{hex};
ghost use Rattle.json_model.specs.Properties.{hex_json};
ghost use Rattle.json_model.specs.Texts.{text_json, name_json};
ghost use Rattle.json_writer.specs.Counted.{Counts};
ghost use Rattle.json_writer.specs.Decoded.{text_left};
ghost use Rattle.json_writer.specs.Units.{units_text, all_fit};

use crate::appending::append;
use crate::buffers::{CHUNK, ROOM, put_few};
use crate::checking::{decode_pieces, decode_units};
use crate::digits::{append_all_pairs, append_pairs};
use crate::plain::put_units;
use crate::utf16::Utf16;
use carrier_io::{Blob, Failed, Sink};

/// A text by its bytes, the low byte of each unit first.
trait Utf16Bytes {
    ghost use Rattle.std.specs.Prelude.{◌≡◌, List, ℕ, []};
    ghost use Rattle.json_model.specs.Digits.{hex};
    ghost use Rattle.json_writer.specs.Counted.{Counts};
    ghost use Rattle.json_writer.specs.Decoded.{text_left, fits_with};

    /// The bytes.
    ghost bytes: { Self → List ℕ };

    /// Lets a decoder take them.
    fn decode(&self, decoder: &mut Utf16)
        ensures { fits_with decoder.new [] ≡ fits_with decoder.old (bytes self.now) };

    /// Appends the characters that a decoder makes of them.
    fn append_decoded<W: Sink>(
        &self,
        sink: &mut W,
        count: &mut u64,
        decoder: &mut Utf16,
    ) -> Result<(), Failed>
        ensures { Counts (W.held sink.old) (W.held sink.new) (W.faults sink.old) (W.faults sink.new) count.old count.new result (text_left decoder.old (bytes self.now)) };

    /// Appends two digits a byte.
    fn append_hex<W: Sink>(&self, sink: &mut W, count: &mut u64) -> Result<(), Failed>
        ensures { Counts (W.held sink.old) (W.held sink.new) (W.faults sink.old) (W.faults sink.new) count.old count.new result (hex (bytes self.now)) };
}

/// The bytes of a blob.
#[derive(Drop)]
struct BlobText<'b, B: Blob>(&'b B);

/// 16-bit units.
#[derive(Drop)]
struct UnitText<'u>(&'u [u16]);

/// Appends the characters that a decoder makes of one piece.
fn append_piece<W: Sink>(
    sink: &mut W,
    count: &mut u64,
    decoder: &mut Utf16,
    bytes: &[u8],
) -> Result<(), Failed>
    ensures text { Counts (W.held sink.old) (W.held sink.new) (W.faults sink.old) (W.faults sink.new) count.old count.new result (text_left decoder.old bytes.now) }
    ensures next { OnOk result ((more : List ℕ) → text_left decoder.old (bytes.now ++ more) ≡ text_left decoder.old bytes.now ++ text_left decoder.new more) }
{
    let mut buffer = [0; ROOM];
    let mut rest = bytes;
    while !rest.is_empty() {
        let (few, after) = rest.split_at(rest.len().min(CHUNK));
        let used = put_few(&mut buffer, decoder, few);
        append(sink, count, &buffer[..used])?;
        rest = after;
    }
    Ok(())
}

/// Appends the characters that a decoder makes of all pieces.
fn append_pieces<B: Blob, W: Sink>(
    sink: &mut W,
    count: &mut u64,
    decoder: &mut Utf16,
    text: &B,
) -> Result<(), Failed>
    ensures { Counts (W.held sink.old) (W.held sink.new) (W.faults sink.old) (W.faults sink.new) count.old count.new result (text_left decoder.old (B.bytes text.now)) }
{
    for k in 0..text.pieces() {
        append_piece(sink, count, decoder, text.piece(k))?;
    }
    Ok(())
}

/// Appends the characters that a decoder makes of units.
fn append_units<W: Sink>(
    sink: &mut W,
    count: &mut u64,
    decoder: &mut Utf16,
    units: &[u16],
) -> Result<(), Failed>
    ensures { Counts (W.held sink.old) (W.held sink.new) (W.faults sink.old) (W.faults sink.new) count.old count.new result (text_left decoder.old (unit_bytes units.now)) }
{
    let mut buffer = [0; ROOM];
    let mut bytes = [0; CHUNK];
    let mut rest = units;
    while !rest.is_empty() {
        let (few, after) = rest.split_at(rest.len().min(CHUNK / 2));
        put_units(&mut bytes, few);
        let used = put_few(&mut buffer, decoder, &bytes[..2 * few.len()]);
        append(sink, count, &buffer[..used])?;
        rest = after;
    }
    Ok(())
}

/// Appends four digits a unit, the low byte first.
fn append_unit_pairs<W: Sink>(sink: &mut W, count: &mut u64, units: &[u16]) -> Result<(), Failed>
    ensures { Counts (W.held sink.old) (W.held sink.new) (W.faults sink.old) (W.faults sink.new) count.old count.new result (hex (unit_bytes units.now)) }
{
    for unit in units {
        append_pairs(sink, count, &unit.to_le_bytes())?;
    }
    Ok(())
}

impl<'b, B: Blob> Utf16Bytes for BlobText<'b, B> {
    ghost bytes = { λ s. B.bytes s.0.now };

    fn decode(&self, decoder: &mut Utf16) {
        decode_pieces(decoder, self.0)
    }

    fn append_decoded<W: Sink>(
        &self,
        sink: &mut W,
        count: &mut u64,
        decoder: &mut Utf16,
    ) -> Result<(), Failed> {
        append_pieces(sink, count, decoder, self.0)
    }

    fn append_hex<W: Sink>(&self, sink: &mut W, count: &mut u64) -> Result<(), Failed> {
        append_all_pairs(sink, count, self.0)
    }
}

impl<'u> Utf16Bytes for UnitText<'u> {
    ghost use Rattle.carrier_model.specs.Bytes.{unit_bytes};

    ghost bytes = { λ s. unit_bytes s.0.now };

    fn decode(&self, decoder: &mut Utf16) {
        decode_units(decoder, self.0)
    }

    fn append_decoded<W: Sink>(
        &self,
        sink: &mut W,
        count: &mut u64,
        decoder: &mut Utf16,
    ) -> Result<(), Failed> {
        append_units(sink, count, decoder, self.0)
    }

    fn append_hex<W: Sink>(&self, sink: &mut W, count: &mut u64) -> Result<(), Failed> {
        append_unit_pairs(sink, count, self.0)
    }
}

/// Whether the units are well-formed UTF-16: each surrogate has its partner.
fn is_well_formed<T: Utf16Bytes>(text: &T) -> bool
    ensures { result ≡ all_fit None (units_of (T.bytes text.now)) }
{
    let mut decoder = Utf16::new();
    text.decode(&mut decoder);
    decoder.is_whole()
}

/// Appends the characters in quotes.
fn append_quoted<T: Utf16Bytes, W: Sink>(
    sink: &mut W,
    count: &mut u64,
    text: &T,
) -> Result<(), Failed>
    ensures { Counts (W.held sink.old) (W.held sink.new) (W.faults sink.old) (W.faults sink.new) count.old count.new result (34 ∷ (units_text None (units_of (T.bytes text.now)) ++ 34 ∷ [])) }
{
    append(sink, count, b"\"")?;
    text.append_decoded(sink, count, &mut Utf16::new())?;
    append(sink, count, b"\"")
}

/// Appends the bytes as digits, in an object.
fn append_object<T: Utf16Bytes, W: Sink>(
    sink: &mut W,
    count: &mut u64,
    text: &T,
) -> Result<(), Failed>
    ensures { Counts (W.held sink.old) (W.held sink.new) (W.faults sink.old) (W.faults sink.new) count.old count.new result (compact_text (object (member (codes "units") (hex_json (T.bytes text.now)) no_members))) }
{
    append(sink, count, b"{\"units\":\"")?;
    text.append_hex(sink, count)?;
    append(sink, count, b"\"}")
}

/// Appends a text: a string, or an object where the units are not well-formed.
fn append_utf16<T: Utf16Bytes, W: Sink>(
    sink: &mut W,
    count: &mut u64,
    text: &T,
) -> Result<(), Failed>
    ensures { Counts (W.held sink.old) (W.held sink.new) (W.faults sink.old) (W.faults sink.new) count.old count.new result (compact_text (text_json (T.bytes text.now))) }
{
    if is_well_formed(text) {
        append_quoted(sink, count, text)
    } else {
        append_object(sink, count, text)
    }
}

/// Appends a text by its bytes, two a unit, the low byte first: a string, or an object of digits where the units are not
/// well-formed. Failed says that the sink failed.
pub fn append_text<B: Blob, W: Sink>(sink: &mut W, count: &mut u64, text: &B) -> Result<(), Failed>
    ensures { Counts (W.held sink.old) (W.held sink.new) (W.faults sink.old) (W.faults sink.new) count.old count.new result (compact_text (text_json (B.bytes text.now))) }
{
    append_utf16(sink, count, &BlobText(text))
}

/// Appends a text by its units, as `append_text` does.
pub fn append_name<W: Sink>(sink: &mut W, count: &mut u64, units: &[u16]) -> Result<(), Failed>
    ensures { Counts (W.held sink.old) (W.held sink.new) (W.faults sink.old) (W.faults sink.new) count.old count.new result (compact_text (name_json units.now)) }
{
    append_utf16(sink, count, &UnitText(units))
}
