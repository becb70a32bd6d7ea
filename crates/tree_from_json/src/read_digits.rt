//! Bytes and ids from hexadecimal digits.
ghost use Rattle.std.specs.Prelude.{◌<◌};
ghost use Rattle.json_model.specs.Digits as plain;
ghost use Rattle.json_values.specs.View.{view};
ghost use Rattle.tree_from_json.specs.Ends.{Reads};

use crate::read_ends::{JsonWhy, ReadEnd, fault_here};
use crate::read_parts::string;
use json_values::Value;
use prop_names::{FIRST_NAMED, Guid, bytes_of_digits, guid_of_digits, number_of_four};
use std::alloc::Global;

/// The bytes of a string of digits, two a byte, in whole groups of so many digits.
pub(crate) fn read_groups(alloc: Global, value: &Value, group: usize) -> Result<Vec<u8>, ReadEnd>
    requires { 0 < group }
    ensures { Reads (λ v. v.items) (plain.read_groups group (view value.now)) result }
{
    let text = string(alloc, value)?;
    if text.len() % group != 0 {
        return Err(fault_here(alloc, JsonWhy::Digits));
    }
    match bytes_of_digits(alloc, text.as_bytes())? {
        Some(bytes) => Ok(bytes),
        None => Err(fault_here(alloc, JsonWhy::Digits)),
    }
}

/// The bytes of a string of digits, two a byte.
pub(crate) fn read_hex(alloc: Global, value: &Value) -> Result<Vec<u8>, ReadEnd>
    ensures { Reads (λ v. v.items) (plain.read_hex (view value.now)) result }
{
    read_groups(alloc, value, 2)
}

/// The 16 bytes of a property set or a class.
pub(crate) fn read_guid(alloc: Global, value: &Value) -> Result<Guid, ReadEnd>
    ensures { Reads (λ g. g.0) (plain.read_guid (view value.now)) result }
{
    let text = string(alloc, value)?;
    match guid_of_digits(text.as_bytes()) {
        Some(set) => Ok(set),
        None => Err(fault_here(alloc, JsonWhy::Digits)),
    }
}

/// The id that a text of four digits is.
pub(crate) fn read_id(alloc: Global, text: &str) -> Result<u16, ReadEnd>
    ensures { Reads (λ n. n) (plain.read_id text.now) result }
{
    match number_of_four(text.as_bytes()) {
        Some(number) if number < u32::from(FIRST_NAMED) => Ok(number as u16),
        Some(_) => Err(fault_here(alloc, JsonWhy::Range)),
        None => Err(fault_here(alloc, JsonWhy::Digits)),
    }
}
