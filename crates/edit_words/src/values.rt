//! Values.
ghost use Rattle.std.specs.Prelude.{◌≡◌, ◌+◌, IfOk};
ghost use Rattle.std.specs.Option.{option_map};
ghost use Rattle.edit_model.specs.EditWords.{number_value, numbers_below, value_of as value_meant};
ghost use Rattle.prop_values.specs.Kinds.{kind_number};
ghost use Rattle.prop_values.specs.Meaning.{value_of};
ghost use Rattle.edit_words.specs.Reading.{IsEditKind};

use crate::decimals::read_decimal;
use carrier_io::NoMemory;
use prop_names::{bytes_of_digits, guid_of_digits};
use prop_values::{Kind, Value, utf16_bytes};
use std::alloc::Global;

/// A number of at most so much.
fn read_number(kind: Kind, most: u64, word: &str) -> Option<Value<Vec<u8>>>
    requires { most + 1 ≡ numbers_below (kind_number kind) }
    ensures { option_map (value_of (λ v. v.items)) result ≡ number_value (kind_number kind) word.now }
{
    match read_decimal(word) {
        Some(bits) => {
            if bits <= most {
                Some(Value::Number { kind, bits })
            } else {
                None
            }
        }
        None => None,
    }
}

/// A value of a kind that an edit may have. [MS-OXCDATA 2.11.1]
pub fn read_value(alloc: Global, kind: Kind, word: &str) -> Result<Option<Value<Vec<u8>>>, NoMemory>
    requires { IsEditKind kind }
    ensures { IfOk result (λ r. option_map (value_of (λ v. v.items)) r ≡ value_meant (kind_number kind) word.now) }
{
    match kind {
        Kind::String => {
            let bytes = utf16_bytes(alloc, word)?;
            Ok(Some(Value::Bytes { kind, bytes }))
        }
        Kind::Binary => match bytes_of_digits(alloc, word.as_bytes())? {
            Some(bytes) => Ok(Some(Value::Bytes { kind, bytes })),
            None => Ok(None),
        },
        Kind::Guid => match guid_of_digits(word.as_bytes()) {
            Some(set) => Ok(Some(Value::Guid(set))),
            None => Ok(None),
        },
        Kind::Integer16 => Ok(read_number(kind, 0xffff, word)),
        Kind::Integer32 => Ok(read_number(kind, 0xffff_ffff, word)),
        Kind::ErrorCode => Ok(read_number(kind, 0xffff_ffff, word)),
        Kind::Boolean => Ok(read_number(kind, 1, word)),
        Kind::Integer64 => Ok(read_number(kind, u64::MAX, word)),
        Kind::Currency => Ok(read_number(kind, u64::MAX, word)),
        Kind::Time => Ok(read_number(kind, u64::MAX, word)),
        _ => unreachable!(),
    }
}
