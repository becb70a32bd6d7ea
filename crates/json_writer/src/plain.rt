//! Units that need no decoder, many of them at once: most texts are little else. [RFC 8259, section 7]
ghost use Rattle.std.specs.Prelude.{◌≡◌, ◌≤◌, ◌<◌, ◌+◌, ◌*◌, ◌/◌, ◌++◌, IsTrue, length, take, get_or};
ghost use Rattle.carrier_model.specs.Bytes.{le16, unit_bytes};
ghost use Rattle.json_writer.specs.Plain.{AreLone, ArePlain, IsPlain, lows};

use crate::buffers::{CHUNK, ROOM};
use crate::utf16::is_lone;
use carrier_io::u16_at;

/// Whether a unit stands for itself: one of ASCII that is no control character, no quote and no backslash.
#[inline(always)]
pub(crate) fn is_plain(unit: u16) -> bool
    ensures { IsTrue result → IsPlain unit }
{
    (0x20 <= unit) & (unit < 0x80) & (unit != 0x22) & (unit != 0x5c)
}

/// Whether bytes are whole units that stand for themselves.
pub(crate) fn are_plain(bytes: &[u8]) -> bool
    ensures { IsTrue result → ArePlain bytes.now }
{
    let mut plain = bytes.len() % 2 == 0;
    for k in 0..bytes.len() / 2 {
        plain = plain & is_plain(u16_at(bytes, 2 * k));
    }
    plain
}

/// Whether bytes are whole units, none of which is one of a pair.
pub(crate) fn are_lone(bytes: &[u8]) -> bool
    ensures { IsTrue result → AreLone bytes.now }
{
    let mut lone = bytes.len() % 2 == 0;
    for k in 0..bytes.len() / 2 {
        lone = lone & is_lone(u16_at(bytes, 2 * k));
    }
    lone
}

/// Puts the low byte of each unit, and answers how many there are.
pub(crate) fn put_plain(buffer: &mut [u8; ROOM], bytes: &[u8]) -> usize
    requires { length bytes.now ≤ CHUNK }
    ensures count { result ≡ length bytes.now / 2 }
    ensures text { take result buffer.new ≡ lows bytes.now }
{
    let count = bytes.len() / 2;
    for k in 0..count {
        buffer[k] = bytes[2 * k];
    }
    count
}

/// Puts the bytes of a unit at its place.
#[inline(always)]
fn put_unit(bytes: &mut [u8; CHUNK], k: usize, unit: u16)
    requires { 2 * k + 2 ≤ CHUNK }
    ensures { take (2 * k + 2) bytes.new ≡ take (2 * k) bytes.old ++ le16 unit }
{
    bytes[2 * k..2 * k + 2].copy_from_slice(&unit.to_le_bytes());
}

/// Puts the bytes of units in place of those that stand there.
pub(crate) fn put_units(bytes: &mut [u8; CHUNK], units: &[u16])
    requires { 2 * length units.now ≤ CHUNK }
    ensures { take (2 * length units.now) bytes.new ≡ unit_bytes units.now }
{
    for k in 0..units.len() {
        put_unit(bytes, k, units[k]);
    }
}
