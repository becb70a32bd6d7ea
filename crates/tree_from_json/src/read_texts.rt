//! Texts of 16-bit units from strings, or from the digits of their bytes. [RFC 8259, section 8]
ghost use Rattle.json_model.specs.Texts.{read_units as plain_units, read_text as plain_text, read_name as plain_name};
ghost use Rattle.json_values.specs.View.{view};
ghost use Rattle.tree_from_json.specs.Ends.{Reads};

use crate::read_digits::read_groups;
use crate::read_ends::{JsonWhy, ReadEnd, fault_here, under};
use crate::read_parts::{has_members, member};
use carrier_io::Units;
use json_values::{Value, as_str};
use prop_names::units_of_bytes;
use prop_values::utf16_bytes;
use std::alloc::Global;

/// A text that is given by the digits of its units.
fn read_units(alloc: Global, value: &Value) -> Result<Vec<u8>, ReadEnd>
    ensures { Reads (λ v. v.items) (plain_units (view value.now)) result }
{
    if !has_members(value, &["units"]) {
        return Err(fault_here(alloc, JsonWhy::Form));
    }
    let units = member(alloc, value, "units")?;
    under(read_groups(alloc, units, 4), 0)
}

/// The bytes of a text, the low byte of each unit first.
pub(crate) fn read_text(alloc: Global, value: &Value) -> Result<Vec<u8>, ReadEnd>
    ensures { Reads (λ v. v.items) (plain_text (view value.now)) result }
{
    match as_str(value) {
        Some(text) => Ok(utf16_bytes(alloc, text)?),
        None => read_units(alloc, value),
    }
}

/// The units of a text of at most so many.
pub(crate) fn read_name(alloc: Global, value: &Value, most: usize) -> Result<Units, ReadEnd>
    ensures { Reads (λ units. units) (plain_name most (view value.now)) result }
{
    let bytes = read_text(alloc, value)?;
    if bytes.len() > most.saturating_mul(2) {
        return Err(fault_here(alloc, JsonWhy::Range));
    }
    Ok(units_of_bytes(alloc, &bytes)?)
}
