//! UTF-16 that comes byte by byte.
ghost use Rattle.std.specs.Prelude.{◌≡◌, ◌&&◌, ◌∷◌, ◌++◌, [], ℕ, List, IsTrue, None, true};
ghost use Rattle.std.specs.Char.Utf16.{is_high_surrogate, is_low_surrogate, surrogate_pair_char, lone_unit_char};
ghost use Rattle.json_writer.specs.Plain.{IsLone};
ghost use Rattle.json_writer.specs.Units.{character, completed, waiting, fits, character_text};

use std::char;

/// A decoder of UTF-16 whose units come byte by byte, the low byte of each first. [RFC 2781]
#[derive(Drop)]
pub(crate) struct Utf16 {
    /// The low byte of a unit whose high byte is still to come.
    pub(crate) low: Option<u8>,
    /// The first unit of a pair whose second is still to come.
    pub(crate) high: Option<u16>,
    /// Whether each unit so far stood where it may.
    pub(crate) fits: bool,
}

/// The first unit of a pair.
#[inline(always)]
fn is_high(unit: u16) -> bool
    ensures { result ≡ is_high_surrogate unit }
{
    0xd800 <= unit && unit < 0xdc00
}

/// The second one.
#[inline(always)]
fn is_low(unit: u16) -> bool
    ensures { result ≡ is_low_surrogate unit }
{
    0xdc00 <= unit && unit < 0xe000
}

/// Whether a unit is none of a pair.
#[inline(always)]
pub(crate) fn is_lone(unit: u16) -> bool
    ensures { IsTrue result → IsLone unit }
{
    !is_high(unit) && !is_low(unit)
}

/// The character of a unit that is in no pair.
#[inline(always)]
fn lone_character(unit: u16) -> Option<char>
    ensures { result ≡ lone_unit_char unit }
{
    char::from_u32(u32::from(unit))
}

/// The character of a pair.
fn pair_character(high: u16, low: u16) -> Option<char>
    ensures { result ≡ character (surrogate_pair_char high low) }
{
    let high = u32::from(high).saturating_sub(0xd800);
    let low = u32::from(low).saturating_sub(0xdc00);
    char::from_u32(0x1_0000 + high * 0x400 + low)
}

/// The character that a unit completes.
#[inline(always)]
fn completed_by(high: Option<u16>, unit: u16) -> Option<char>
    ensures { result ≡ completed high unit }
{
    match high {
        None => lone_character(unit),
        Some(high) if is_low(unit) => pair_character(high, unit),
        Some(_) => None,
    }
}

/// The unit, where it is the first of a pair.
#[inline(always)]
fn first_of_pair(unit: u16) -> Option<u16>
    ensures { result ≡ waiting None unit }
{
    if is_high(unit) { Some(unit) } else { None }
}

impl Utf16 {
    ghost use Rattle.json_writer.specs.Decoded.{text_left, fits_with};

    /// A decoder that has taken nothing.
    pub(crate) fn new() -> Utf16
        ensures low { result.low ≡ None }
        ensures high { result.high ≡ None }
        ensures fits { result.fits ≡ true }
    {
        Utf16 {
            low: None,
            high: None,
            fits: true,
        }
    }

    /// Takes a unit, and answers the character that it completes.
    #[inline(always)]
    pub(crate) fn take_unit(&mut self, unit: u16) -> Option<char>
        ensures character { result ≡ completed self.old.high unit }
        ensures high { self.new.high ≡ waiting self.old.high unit }
        ensures fits { self.new.fits ≡ self.old.fits && fits self.old.high unit }
        ensures low { self.new.low ≡ self.old.low }
    {
        let character = completed_by(self.high, unit);
        let is_second = is_low(unit);
        match self.high {
            None => {
                self.fits = self.fits && !is_second;
                self.high = first_of_pair(unit);
            }
            Some(_) => {
                self.fits = self.fits && is_second;
                self.high = None;
            }
        }
        character
    }

    /// Takes a byte, and answers the character that it completes.
    #[inline(always)]
    pub(crate) fn take_byte(&mut self, byte: u8) -> Option<char>
        ensures text { (more : List ℕ) → text_left self.old (byte ∷ more) ≡ character_text result ++ text_left self.new more }
        ensures fits { (more : List ℕ) → fits_with self.old (byte ∷ more) ≡ fits_with self.new more }
    {
        match self.low {
            None => {
                self.low = Some(byte);
                None
            }
            Some(low) => {
                self.low = None;
                self.take_unit(u16::from_le_bytes([low, byte]))
            }
        }
    }

    /// Whether all units stood where they may, and none of a pair is missing at the end.
    pub(crate) fn is_whole(&self) -> bool
        ensures { result ≡ fits_with self.now [] }
    {
        self.fits && self.high.is_none()
    }
}
