//! Values of bytes, and of several elements.
ghost use Rattle.std.specs.Prelude.{◌≡◌, ◌+◌, ◌==◌, if◌then◌else◌};
ghost use Rattle.json_model.specs.Digits.{read_guid as plain_guid, read_hex as plain_hex};
ghost use Rattle.json_model.specs.Parts.{number_below};
ghost use Rattle.json_model.specs.Properties.{bytes_limit as plain_limit, read_bytes as plain_bytes, read_list};
ghost use Rattle.json_model.specs.Texts.{read_text as plain_text};
ghost use Rattle.prop_values.specs.Kinds.{kind_number};
ghost use Rattle.json_values.specs.View.{view};
ghost use Rattle.tree_from_json.specs.Ends.{Reads};

use crate::read_digits::{read_guid, read_hex};
use crate::read_ends::{JsonWhy, ReadEnd, fault_here, under};
use crate::read_parts::{items, number_up_to};
use crate::read_texts::read_text;
use carrier_io::Numbers;
use json_values::{Value, unboxed};
use prop_values::{Guids, Kind, Parts};
use std::alloc::Global;

/// One above the most elements of a value.
const LIST_LIMIT: usize = 0x1000_0000;

/// One above the most bytes of a String8.
const STRING8_LIMIT: usize = 0x1000_0000;

/// One above the most bytes of any other value. A String8 of the most bytes is still within it as a String.
const BYTES_LIMIT: usize = 0x4000_0000;

/// A text, or digits, by the kind.
fn read_either(alloc: Global, kind: Kind, value: &Value) -> Result<Vec<u8>, ReadEnd>
    ensures { Reads (λ v. v.items) (if kind_number kind == 0x001F then plain_text (view value.now) else plain_hex (view value.now)) result }
{
    match kind {
        Kind::String => read_text(alloc, value),
        _ => read_hex(alloc, value),
    }
}

/// One above the most bytes of a kind.
fn bytes_limit(kind: Kind) -> usize
    ensures { result ≡ plain_limit (kind_number kind) }
{
    match kind {
        Kind::String8 => STRING8_LIMIT,
        _ => BYTES_LIMIT,
    }
}

/// The bytes of a kind.
pub(crate) fn read_bytes(alloc: Global, kind: Kind, value: &Value) -> Result<Vec<u8>, ReadEnd>
    ensures { Reads (λ v. v.items) (plain_bytes (kind_number kind) (view value.now)) result }
{
    let bytes = read_either(alloc, kind, value)?;
    if bytes.len() >= bytes_limit(kind) {
        return Err(fault_here(alloc, JsonWhy::Range));
    }
    Ok(bytes)
}

/// Several numbers.
pub(crate) fn read_numbers(alloc: Global, value: &Value, most: u64) -> Result<Numbers, ReadEnd>
    ensures { Reads (λ list. list) (read_list (number_below (most + 1)) (view value.now)) result }
{
    let values = unboxed(items(alloc, value)?);
    let mut list = Numbers::with_capacity(alloc, values.len())?;
    for item in values {
        let step = list.len() as u64;
        list.push(under(number_up_to(alloc, item, most), step)?)?;
    }
    if list.len() >= LIST_LIMIT {
        return Err(fault_here(alloc, JsonWhy::Range));
    }
    Ok(list)
}

/// Several GUIDs.
pub(crate) fn read_guids(alloc: Global, value: &Value) -> Result<Guids, ReadEnd>
    ensures { Reads (λ list. list) (read_list plain_guid (view value.now)) result }
{
    let values = unboxed(items(alloc, value)?);
    let mut list = Guids::with_capacity(alloc, values.len())?;
    for item in values {
        let step = list.len() as u64;
        list.push(under(read_guid(alloc, item), step)?)?;
    }
    if list.len() >= LIST_LIMIT {
        return Err(fault_here(alloc, JsonWhy::Range));
    }
    Ok(list)
}

/// Several texts or binaries of a kind.
pub(crate) fn read_parts(
    alloc: Global,
    kind: Kind,
    value: &Value,
) -> Result<Parts<Vec<u8>>, ReadEnd>
    ensures { Reads (λ list. list) (read_list (plain_bytes (kind_number kind)) (view value.now)) result }
{
    let values = unboxed(items(alloc, value)?);
    let mut list = Parts::with_capacity(alloc, values.len())?;
    for item in values {
        let step = list.len() as u64;
        list.push(under(read_bytes(alloc, kind, item), step)?)?;
    }
    if list.len() >= LIST_LIMIT {
        return Err(fault_here(alloc, JsonWhy::Range));
    }
    Ok(list)
}
