//! Hexadecimal digits, read.
ghost use Rattle.std.specs.Prelude.{◌≡◌, ◌≤◌, ◌<◌, ◌&&◌, ◌+◌, ◌*◌, IfOk, IfSome, None, Some, if◌then◌else◌};
ghost use Rattle.std.specs.Option.{option_map};
ghost use Rattle.carrier_model.specs.HexDigits as plain;
ghost use Rattle.carrier_model.specs.HexDigits.{is_digit};
ghost use Rattle.carrier_model.specs.KeyTexts.{lower};

use crate::names::Guid;
use carrier_io::NoMemory;
use std::alloc::Global;

/// The value of a digit. The letters from ten on begin with the given one.
fn digit_of(letter: u8, digit: u8) -> Option<u8>
    requires { 0x3A ≤ letter }
    ensures value { result ≡ (if is_digit letter digit then Some (plain.digit_of letter digit) else None) }
    ensures bound { IfSome result (λ n. n < 16) }
{
    if b'0' <= digit && digit <= b'9' {
        return Some(digit - b'0');
    }
    if letter <= digit && digit - letter <= 5 {
        return Some(digit - letter + 10);
    }
    None
}

/// The byte of two lower-case digits.
fn byte_of(high: u8, low: u8) -> Option<u8>
    ensures { result ≡ (if is_digit lower high && is_digit lower low then Some (16 * plain.digit_of lower high + plain.digit_of lower low) else None) }
{
    match digit_of(b'a', high) {
        Some(front) => match digit_of(b'a', low) {
            Some(back) => Some(16 * front + back),
            None => None,
        },
        None => None,
    }
}

/// The bytes of lower-case digits, two a byte. None says that a character is no such digit, or that their number is odd;
/// NoMemory that memory ran out.
pub fn bytes_of_digits(alloc: Global, text: &[u8]) -> Result<Option<Vec<u8>>, NoMemory>
    ensures { IfOk result (λ r. option_map (λ v. v.items) r ≡ plain.bytes_of text.now) }
{
    if text.len() % 2 != 0 {
        return Ok(None);
    }
    let mut bytes = Vec::with_capacity(alloc, text.len() / 2)?;
    for k in 0..text.len() / 2 {
        match byte_of(text[2 * k], text[2 * k + 1]) {
            Some(byte) => bytes.push(byte)?,
            None => return Ok(None),
        }
    }
    Ok(Some(bytes))
}

/// The GUID whose bytes, in the order of a file, are these 32 lower-case digits. None says that they are not.
/// [MS-DTYP 2.3.4.2]
pub fn guid_of_digits(text: &[u8]) -> Option<Guid>
    ensures { option_map (λ g. g.0) result ≡ plain.guid_of text.now }
{
    if text.len() != 32 {
        return None;
    }
    let mut set = [0u8; 16];
    for k in 0..16 {
        match byte_of(text[2 * k], text[2 * k + 1]) {
            Some(byte) => set[k] = byte,
            None => return None,
        }
    }
    Some(Guid(set))
}

/// The number of four upper-case digits, or None.
pub fn number_of_four(text: &[u8]) -> Option<u32>
    ensures number { result ≡ plain.number_of 4 text.now }
    ensures bound { IfSome result (λ n. n < 65536) }
{
    if text.len() != 4 {
        return None;
    }
    let first = u32::from(digit_of(b'A', text[0])?);
    let second = u32::from(digit_of(b'A', text[1])?);
    let third = u32::from(digit_of(b'A', text[2])?);
    let fourth = u32::from(digit_of(b'A', text[3])?);
    Some(16 * (16 * (16 * first + second) + third) + fourth)
}

/// The number of eight upper-case digits, or None.
pub fn number_of_eight(text: &[u8]) -> Option<u32>
    ensures { result ≡ plain.number_of 8 text.now }
{
    if text.len() != 8 {
        return None;
    }
    let high = number_of_four(&text[..4])?;
    let low = number_of_four(&text[4..])?;
    Some(65536 * high + low)
}
