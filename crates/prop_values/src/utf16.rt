//! Texts in UTF-16.
ghost use Rattle.std.specs.Prelude.{◌≡◌, ◌++◌, OnOk, IfOk};
ghost use Rattle.std.specs.Char.Escape.{encode_utf16};
ghost use Rattle.std.specs.List.{flat_map};
ghost use Rattle.std.specs.Str.{chars};
ghost use Rattle.carrier_model.specs.Bytes.{unit_bytes};

use carrier_io::NoMemory;
use std::alloc::Global;

/// Appends the units of a character, the low byte of each first.
fn push_character(bytes: &mut Vec<u8>, character: char) -> Result<(), NoMemory>
    ensures { OnOk result (bytes.new.items ≡ bytes.old.items ++ unit_bytes (encode_utf16 character)) }
{
    let mut pair = [0; 2];
    let units: &[u16] = character.encode_utf16(&mut pair);
    for unit in units {
        bytes.extend_from_slice(&unit.to_le_bytes())?;
    }
    Ok(())
}

/// The value of a String: the units of a text in UTF-16, the low byte of each first. NoMemory says that memory ran out.
/// [MS-OXCDATA 2.11.1, RFC 2781]
pub fn utf16_bytes(alloc: Global, text: &str) -> Result<Vec<u8>, NoMemory>
    ensures { IfOk result (λ v. v.items ≡ unit_bytes (flat_map encode_utf16 (chars text.now))) }
{
    let mut bytes = Vec::with_capacity(alloc, text.len())?;
    for character in text.chars() {
        push_character(&mut bytes, character)?;
    }
    Ok(bytes)
}
