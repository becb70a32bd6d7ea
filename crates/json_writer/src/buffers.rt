//! Texts of characters, put together before they are appended. [RFC 8259, section 7]
ghost use Rattle.std.specs.Prelude.{◌≡◌, ◌≤◌, ◌<◌, ◌+◌, ◌*◌, ◌/◌, ◌∷◌, ◌++◌, ◌%◌, ℕ, List, None, length, take, false};
ghost use Rattle.std.specs.Char.{encode_utf8, is_ascii};
ghost use Rattle.json.specs.Print.{escape_byte, escape_letter, escape};
ghost use Rattle.json_writer.specs.Decoded.{text_left};
ghost use Rattle.json_writer.specs.Units.{character_text};

use crate::characters::short_escape;
use crate::plain::{are_plain, is_plain, put_plain};
use crate::utf16::Utf16;
use carrier_io::u16_at;
use prop_names::lower_digits2;

/// How many bytes are decoded at a time.
pub(crate) const CHUNK: usize = 256;

/// How many bytes their characters take at the most.
pub(crate) const ROOM: usize = 6 * CHUNK;

/// Puts bytes behind those that stand there, and answers how many stand there then.
#[inline(always)]
fn put(buffer: &mut [u8; ROOM], used: usize, bytes: &[u8]) -> usize
    requires { used + length bytes.now ≤ ROOM }
    ensures count { result ≡ used + length bytes.now }
    ensures text { take result buffer.new ≡ take used buffer.old ++ bytes.now }
{
    let end = used + bytes.len();
    buffer[used..end].copy_from_slice(bytes);
    end
}

/// Puts what stands for a control character that has no short escape.
fn put_control(buffer: &mut [u8; ROOM], used: usize, byte: u8) -> usize
    requires small { byte < 32 }
    requires long { escape_letter byte ≡ 0 }
    requires room { used + 6 ≤ ROOM }
    ensures count { result ≡ used + 6 }
    ensures text { take result buffer.new ≡ take used buffer.old ++ escape_byte byte }
{
    let [high, low] = lower_digits2(byte);
    put(buffer, used, &[b'\\', b'u', b'0', b'0', high, low])
}

/// Puts what stands for a byte of a string.
#[inline(always)]
fn put_byte(buffer: &mut [u8; ROOM], used: usize, byte: u8) -> usize
    requires { used + 6 ≤ ROOM }
    ensures count { result ≤ used + 6 }
    ensures text { take result buffer.new ≡ take used buffer.old ++ escape_byte byte }
{
    match short_escape(byte) {
        Some(letter) => put(buffer, used, &[b'\\', letter]),
        None if byte < 0x20 => put_control(buffer, used, byte),
        None => put(buffer, used, &[byte]),
    }
}

/// Puts a character that is no ASCII.
fn put_wide(buffer: &mut [u8; ROOM], used: usize, character: char) -> usize
    requires wide { is_ascii character ≡ false }
    requires room { used + 6 ≤ ROOM }
    ensures count { result ≤ used + 6 }
    ensures text { take result buffer.new ≡ take used buffer.old ++ escape (encode_utf8 character) }
{
    let mut bytes = [0; 4];
    match character.encode_utf8(&mut bytes).as_bytes() {
        [one, two] => put(buffer, used, &[*one, *two]),
        [one, two, three] => put(buffer, used, &[*one, *two, *three]),
        all => put(buffer, used, all),
    }
}

/// Puts a character of a string, in UTF-8.
#[inline(always)]
fn put_character(buffer: &mut [u8; ROOM], used: usize, character: char) -> usize
    requires { used + 6 ≤ ROOM }
    ensures count { result ≤ used + 6 }
    ensures text { take result buffer.new ≡ take used buffer.old ++ escape (encode_utf8 character) }
{
    if character.is_ascii() {
        put_byte(buffer, used, character as u8)
    } else {
        put_wide(buffer, used, character)
    }
}

/// Puts a character, where there is one.
#[inline(always)]
pub(crate) fn put_some(buffer: &mut [u8; ROOM], used: usize, character: Option<char>) -> usize
    requires { used + 6 ≤ ROOM }
    ensures count { result ≤ used + 6 }
    ensures text { take result buffer.new ≡ take used buffer.old ++ character_text character }
{
    match character {
        Some(character) => put_character(buffer, used, character),
        None => used,
    }
}

/// Puts the characters that a decoder makes of bytes, one by one.
fn put_bytes(buffer: &mut [u8; ROOM], decoder: &mut Utf16, bytes: &[u8]) -> usize
    requires { length bytes.now ≤ CHUNK }
    ensures count { result ≤ ROOM }
    ensures text { (more : List ℕ) → text_left decoder.old (bytes.now ++ more) ≡ take result buffer.new ++ text_left decoder.new more }
{
    let mut used = 0;
    for byte in bytes {
        used = put_some(buffer, used, decoder.take_byte(*byte));
    }
    used
}

/// Puts the character that a decoder makes of a unit.
#[inline(always)]
fn put_unit(buffer: &mut [u8; ROOM], used: usize, decoder: &mut Utf16, unit: u16) -> usize
    requires whole { decoder.old.low ≡ None }
    requires room { used + 6 ≤ ROOM }
    ensures whole { decoder.new.low ≡ None }
    ensures count { result ≤ used + 6 }
    ensures text { (low high : ℕ) → unit ≡ low + 256 * high → (more : List ℕ) → take used buffer.old ++ text_left decoder.old (low ∷ high ∷ more) ≡ take result buffer.new ++ text_left decoder.new more }
{
    if decoder.high.is_none() && is_plain(unit) {
        put(buffer, used, &[unit as u8])
    } else {
        put_some(buffer, used, decoder.take_unit(unit))
    }
}

/// Puts the characters that a decoder makes of whole units, one by one.
fn put_each(buffer: &mut [u8; ROOM], decoder: &mut Utf16, bytes: &[u8]) -> usize
    requires whole { decoder.old.low ≡ None }
    requires even { length bytes.now % 2 ≡ 0 }
    requires few { length bytes.now ≤ CHUNK }
    ensures count { result ≤ ROOM }
    ensures text { (more : List ℕ) → text_left decoder.old (bytes.now ++ more) ≡ take result buffer.new ++ text_left decoder.new more }
{
    let mut used = 0;
    for k in 0..bytes.len() / 2 {
        used = put_unit(buffer, used, decoder, u16_at(bytes, 2 * k));
    }
    used
}

/// Puts the characters that a decoder makes of a few bytes, at once where each unit stands for itself, and answers how
/// many bytes they take.
pub(crate) fn put_few(buffer: &mut [u8; ROOM], decoder: &mut Utf16, bytes: &[u8]) -> usize
    requires { length bytes.now ≤ CHUNK }
    ensures count { result ≤ ROOM }
    ensures text { (more : List ℕ) → text_left decoder.old (bytes.now ++ more) ≡ take result buffer.new ++ text_left decoder.new more }
{
    if decoder.low.is_some() || bytes.len() % 2 != 0 {
        put_bytes(buffer, decoder, bytes)
    } else if decoder.high.is_none() && are_plain(bytes) {
        put_plain(buffer, bytes)
    } else {
        put_each(buffer, decoder, bytes)
    }
}
