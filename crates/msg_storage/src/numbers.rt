//! Numbers at the ends of names.
ghost use Rattle.std.specs.Prelude.{◌≡◌, ◌≤◌, length};
ghost use Rattle.std.specs.Char.{to_ascii_lowercase};
ghost use Rattle.carrier_model.specs.Lookups as lookups;
ghost use Rattle.msg_model.specs.MsgMessage as plain;
ghost use Rattle.msg_storage.specs.Numbered.{digit_of, digits_of};

/// A unit, in lower case where it is an ASCII letter.
fn lower(unit: u16) -> u16
    ensures { result ≡ to_ascii_lowercase unit }
{
    if unit >= 65 && unit <= 90 {
        unit + 32
    } else {
        unit
    }
}

/// Whether units are the characters of a text, ASCII letters in one case.
fn same_name(units: &[u16], text: &[u8]) -> bool
    ensures { result ≡ lookups.same_name units.now text.now }
{
    if units.len() != text.len() {
        return false;
    }
    for k in 0..units.len() {
        if lower(units[k]) != lower(u16::from(text[k])) {
            return false;
        }
    }
    true
}

/// The number of a hexadecimal digit of either case; None of another unit.
fn digit(unit: u16) -> Option<u32>
    ensures { result ≡ digit_of unit }
{
    match unit {
        0x30..=0x39 => Some(u32::from(unit) - 0x30),
        0x41..=0x46 => Some(u32::from(unit) - 0x37),
        0x61..=0x66 => Some(u32::from(unit) - 0x57),
        _ => None,
    }
}

/// The number of at most eight hexadecimal digits of either case; None where another unit is among them.
fn number_of(digits: &[u16]) -> Option<u32>
    requires { length digits.now ≤ 8 }
    ensures { result ≡ digits_of digits.now }
{
    let mut number = 0;
    for unit in digits {
        number = 16 * number + digit(*unit)?;
    }
    Some(number)
}

/// The number in a name that is a prefix, ASCII letters in one case, and eight hexadecimal digits of either case.
/// [MS-OXMSG 2.2.1, 2.2.2]
pub fn number_in(prefix: &[u8], name: &[u16]) -> Option<u32>
    ensures { result ≡ plain.number_in prefix.now name.now }
{
    if name.len() < 8 || name.len() - 8 != prefix.len() {
        return None;
    }
    let (front, digits) = name.split_at(prefix.len());
    if !same_name(front, prefix) {
        return None;
    }
    number_of(digits)
}
