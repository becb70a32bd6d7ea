//! Pages in which each byte is one unit.
ghost use Rattle.std.specs.Prelude.{◌≡◌, ◌<◌, ◌≤◌, ◌++◌, ℕ, None, OnOk, IfOk, IfErr, IfSome, IfNone, length, take, slice_index};
ghost use Rattle.carrier_model.specs.Bytes.{unit_bytes, le16};
ghost use Rattle.text8_model.specs.Texts.{bad_by, units_by};
ghost use Rattle.tree_text8.specs.Ends.{IsBadAt};
ghost use Rattle.tree_text8.specs.Singles.{unit_of, AreMapped};

use crate::ends::PartEnd;
use carrier_io::NoMemory;
use std::alloc::Global;

/// What Windows-1252 has for the bytes 80 to 9F. [MS-UCODEREF]
const WINDOWS_ROW: [Option<u16>; 32] = [
    Some(0x20AC),
    None,
    Some(0x201A),
    Some(0x0192),
    Some(0x201E),
    Some(0x2026),
    Some(0x2020),
    Some(0x2021),
    Some(0x02C6),
    Some(0x2030),
    Some(0x0160),
    Some(0x2039),
    Some(0x0152),
    None,
    Some(0x017D),
    None,
    None,
    Some(0x2018),
    Some(0x2019),
    Some(0x201C),
    Some(0x201D),
    Some(0x2022),
    Some(0x2013),
    Some(0x2014),
    Some(0x02DC),
    Some(0x2122),
    Some(0x0161),
    Some(0x203A),
    Some(0x0153),
    None,
    Some(0x017E),
    Some(0x0178),
];

/// A page of single bytes.
#[derive(Clone, Copy, Debug, PartialEq, Eq)]
pub(crate) enum SinglePage {
    Windows1252,
    Latin1,
    Ascii,
}

impl SinglePage {
    /// The unit of a byte.
    fn unit(self, byte: u8) -> Option<u16>
        ensures { result ≡ unit_of self byte }
    {
        match self {
            SinglePage::Windows1252 => windows_unit(byte),
            SinglePage::Latin1 => Some(u16::from(byte)),
            SinglePage::Ascii => ascii_unit(byte),
        }
    }
}

fn windows_unit(byte: u8) -> Option<u16>
    ensures { result ≡ unit_of SinglePage.Windows1252 byte }
{
    if byte < 0x80 {
        return Some(u16::from(byte));
    }
    if byte < 0xA0 {
        return WINDOWS_ROW[usize::from(byte - 0x80)];
    }
    Some(u16::from(byte))
}

fn ascii_unit(byte: u8) -> Option<u16>
    ensures { result ≡ unit_of SinglePage.Ascii byte }
{
    if byte < 0x80 {
        Some(u16::from(byte))
    } else {
        None
    }
}

/// How many bytes of ASCII stand at the front.
fn ascii_run(bytes: &[u8]) -> usize
    ensures within { result ≤ length bytes.now }
    ensures ascii { (k : ℕ) → k < result → slice_index bytes.now k < 128 }
{
    for (k, byte) in bytes.iter().enumerate() {
        if 0x80 <= *byte {
            return k;
        }
    }
    bytes.len()
}

/// Appends the units of bytes that are units themselves.
fn push_same(wide: &mut Vec<u8>, run: &[u8]) -> Result<(), NoMemory>
    ensures { OnOk result (wide.new.items ≡ wide.old.items ++ unit_bytes run.now) }
{
    for byte in run {
        wide.push(*byte)?;
        wide.push(0)?;
    }
    Ok(())
}

/// Appends a unit.
fn push_unit(wide: &mut Vec<u8>, unit: u16) -> Result<(), NoMemory>
    ensures { OnOk result (wide.new.items ≡ wide.old.items ++ le16 unit) }
{
    let [low, high] = unit.to_le_bytes();
    wide.push(low)?;
    wide.push(high)?;
    Ok(())
}

/// Appends the units of the ASCII at the front, or else of the first byte, and tells how many bytes these are; None where
/// the first byte has no unit.
fn push_front(wide: &mut Vec<u8>, page: SinglePage, rest: &[u8]) -> Result<Option<usize>, NoMemory>
    requires { 0 < length rest.now }
    ensures some { IfOk result (λ r. IfSome r (λ n. (0 < n) × (n ≤ length rest.now) × AreMapped page (take n rest.now) wide.old.items wide.new.items)) }
    ensures none { IfOk result (λ r. IfNone r (unit_of page (slice_index rest.now 0) ≡ None)) }
{
    let run = ascii_run(rest);
    if 0 < run {
        push_same(wide, &rest[..run])?;
        return Ok(Some(run));
    }
    match page.unit(rest[0]) {
        Some(unit) => {
            push_unit(wide, unit)?;
            Ok(Some(1))
        }
        None => Ok(None),
    }
}

/// The units of a text in a page of single bytes, the low byte of each first.
pub(crate) fn wide_singles(
    alloc: Global,
    page: SinglePage,
    bytes: &[u8],
) -> Result<Vec<u8>, PartEnd>
    ensures ok { IfOk result (λ v. (bad_by (unit_of page) bytes.now ≡ None) × (v.items ≡ unit_bytes (units_by (unit_of page) bytes.now))) }
    ensures bad { IfErr result (IsBadAt (bad_by (unit_of page) bytes.now)) }
{
    let mut wide = Vec::with_capacity(alloc, bytes.len().saturating_mul(2))?;
    let mut at = 0;
    while at < bytes.len() {
        match push_front(&mut wide, page, &bytes[at..])? {
            Some(run) => at += run,
            None => return Err(PartEnd::Bad { element: 0, at }),
        }
    }
    Ok(wide)
}
