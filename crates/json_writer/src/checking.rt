//! Whether units are well-formed: a decoder takes them and keeps nothing.
ghost use Rattle.std.specs.Prelude.{◌≡◌, ◌++◌, ◌%◌, [], ℕ, List, None, length};
ghost use Rattle.carrier_model.specs.Bytes.{unit_bytes};
ghost use Rattle.json_writer.specs.Decoded.{fits_with};

use crate::buffers::CHUNK;
use crate::plain::{are_lone, put_units};
use crate::utf16::Utf16;
use carrier_io::{Blob, u16_at};

/// Lets a decoder take bytes, one by one.
fn decode_bytes(decoder: &mut Utf16, bytes: &[u8])
    ensures { (more : List ℕ) → fits_with decoder.old (bytes.now ++ more) ≡ fits_with decoder.new more }
{
    for byte in bytes {
        decoder.take_byte(*byte);
    }
}

/// Lets a decoder take whole units, one by one.
fn decode_each(decoder: &mut Utf16, bytes: &[u8])
    requires whole { decoder.old.low ≡ None }
    requires even { length bytes.now % 2 ≡ 0 }
    ensures { (more : List ℕ) → fits_with decoder.old (bytes.now ++ more) ≡ fits_with decoder.new more }
{
    for k in 0..bytes.len() / 2 {
        decoder.take_unit(u16_at(bytes, 2 * k));
    }
}

/// Lets a decoder take a few bytes. Units that are in no pair change nothing.
fn decode_few(decoder: &mut Utf16, bytes: &[u8])
    ensures { (more : List ℕ) → fits_with decoder.old (bytes.now ++ more) ≡ fits_with decoder.new more }
{
    if decoder.low.is_some() || bytes.len() % 2 != 0 {
        decode_bytes(decoder, bytes);
    } else if decoder.high.is_some() || !are_lone(bytes) {
        decode_each(decoder, bytes);
    }
}

/// Lets a decoder take one piece.
fn decode_piece(decoder: &mut Utf16, bytes: &[u8])
    ensures { (more : List ℕ) → fits_with decoder.old (bytes.now ++ more) ≡ fits_with decoder.new more }
{
    let mut rest = bytes;
    while !rest.is_empty() {
        let (few, after) = rest.split_at(rest.len().min(CHUNK));
        decode_few(decoder, few);
        rest = after;
    }
}

/// Lets a decoder take all pieces.
pub(crate) fn decode_pieces<B: Blob>(decoder: &mut Utf16, text: &B)
    ensures { fits_with decoder.new [] ≡ fits_with decoder.old (B.bytes text.now) }
{
    for k in 0..text.pieces() {
        decode_piece(decoder, text.piece(k));
    }
}

/// Lets a decoder take units.
pub(crate) fn decode_units(decoder: &mut Utf16, units: &[u16])
    ensures { fits_with decoder.new [] ≡ fits_with decoder.old (unit_bytes units.now) }
{
    let mut bytes = [0; CHUNK];
    let mut rest = units;
    while !rest.is_empty() {
        let (few, after) = rest.split_at(rest.len().min(CHUNK / 2));
        put_units(&mut bytes, few);
        decode_few(decoder, &bytes[..2 * few.len()]);
        rest = after;
    }
}
