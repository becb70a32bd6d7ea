//! Keys of properties.
ghost use Rattle.std.specs.Prelude.{◌^◌};
ghost use Rattle.json_model.specs.Parts.{number_below};
ghost use Rattle.json_model.specs.Properties.{read_numbered as plain_numbered, read_texted as plain_texted, read_named as plain_named, read_key as plain_key};
ghost use Rattle.prop_names.specs.Meaning.{key_of, name_of};
ghost use Rattle.json_values.specs.View.{view};
ghost use Rattle.tree_from_json.specs.Ends.{Reads};

use crate::read_digits::{read_guid, read_id};
use crate::read_ends::{JsonWhy, ReadEnd, fault_here, under};
use crate::read_parts::{has_members, member, number_up_to};
use crate::read_texts::read_name;
use json_values::{Value, as_str};
use prop_names::{Key, Name};
use std::alloc::Global;

/// The most units of a name's text.
const MOST_UNITS: usize = 255;

/// The number of a name.
fn read_number(alloc: Global, value: &Value) -> Result<u32, ReadEnd>
    ensures { Reads (λ n. n) (number_below (2 ^ 32) (view value.now)) result }
{
    Ok(number_up_to(alloc, value, u64::from(u32::MAX))? as u32)
}

/// A name by its number.
fn read_numbered(alloc: Global, value: &Value) -> Result<Name, ReadEnd>
    ensures { Reads name_of (plain_numbered (view value.now)) result }
{
    let number = under(read_number(alloc, member(alloc, value, "number")?), 0)?;
    let set = under(read_guid(alloc, member(alloc, value, "set")?), 1)?;
    Ok(Name::Number { set, number })
}

/// A name by its text.
fn read_texted(alloc: Global, value: &Value) -> Result<Name, ReadEnd>
    ensures { Reads name_of (plain_texted (view value.now)) result }
{
    let set = under(read_guid(alloc, member(alloc, value, "set")?), 0)?;
    let units = under(
        read_name(alloc, member(alloc, value, "text")?, MOST_UNITS),
        1,
    )?;
    Ok(Name::of_text(alloc, set, units)?)
}

/// A name in a property set.
fn read_named(alloc: Global, value: &Value) -> Result<Name, ReadEnd>
    ensures { Reads name_of (plain_named (view value.now)) result }
{
    if has_members(value, &["number", "set"]) {
        return read_numbered(alloc, value);
    }
    if has_members(value, &["set", "text"]) {
        return read_texted(alloc, value);
    }
    Err(fault_here(alloc, JsonWhy::Form))
}

/// A key: an id as a string, or a name as an object.
pub(crate) fn read_key(alloc: Global, value: &Value) -> Result<Key, ReadEnd>
    ensures { Reads key_of (plain_key (view value.now)) result }
{
    match as_str(value) {
        Some(text) => Ok(Key::Id(read_id(alloc, text)?)),
        None => Ok(Key::Named(read_named(alloc, value)?)),
    }
}
