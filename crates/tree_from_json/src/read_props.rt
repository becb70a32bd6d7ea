//! Properties and lists of them.
ghost use Rattle.std.specs.Prelude.{◌≡◌, ◌++◌, ◌∷◌, [], IfOk, OnOk, true};
ghost use Rattle.carrier_model.specs.Sorted.{IsStrictlySorted};
ghost use Rattle.carrier_model.specs.Values.{prop_cmp};
ghost use Rattle.json_model.specs.Properties.{comes_after as comes_plain, read_next_prop as plain_next, read_prop as plain_prop, read_props as plain_props};
ghost use Rattle.json_values.specs.View.{view};
ghost use Rattle.tree_from_json.specs.Ends.{Reads};

use crate::read_ends::{JsonWhy, ReadEnd, fault_here, under};
use crate::read_keys::read_key;
use crate::read_kinds::read_kind;
use crate::read_parts::{has_members, items, member};
use crate::read_values::read_value;
use carrier_io::NoMemory;
use json_values::{Value, unboxed};
use prop_values::{InsertEnd, Prop, Props};
use std::alloc::Global;

/// A property. Its kind is tested before its other members.
fn read_prop(alloc: Global, value: &Value) -> Result<Prop<Vec<u8>>, ReadEnd>
    ensures { Reads (λ prop. prop) (plain_prop (view value.now)) result }
{
    if !has_members(value, &["key", "kind", "value"]) {
        return Err(fault_here(alloc, JsonWhy::Form));
    }
    let kind = under(read_kind(alloc, member(alloc, value, "kind")?), 1)?;
    let key = under(read_key(alloc, member(alloc, value, "key")?), 0)?;
    let value = under(read_value(alloc, kind, member(alloc, value, "value")?), 2)?;
    Ok(Prop { key, value })
}

/// Whether a property comes after the last one, if there is one.
fn comes_after(before: &Props<Vec<u8>>, prop: &Prop<Vec<u8>>) -> bool
    ensures { result ≡ comes_plain before.now prop.now }
{
    if before.len() == 0 {
        return true;
    }
    before.get(before.len() - 1).order(prop).is_lt()
}

/// The property behind others.
fn read_next_prop(
    alloc: Global,
    before: &Props<Vec<u8>>,
    value: &Value,
) -> Result<Prop<Vec<u8>>, ReadEnd>
    ensures read { Reads (λ prop. prop) (plain_next before.now (view value.now)) result }
    ensures after { IfOk result (λ prop. comes_plain before.now prop ≡ true) }
{
    let prop = read_prop(alloc, value)?;
    if !comes_after(before, &prop) {
        return Err(fault_here(alloc, JsonWhy::Order));
    }
    Ok(prop)
}

/// Puts a property behind all others.
fn push_prop(props: &mut Props<Vec<u8>>, prop: Prop<Vec<u8>>) -> Result<(), NoMemory>
    requires sorted { IsStrictlySorted prop_cmp props.old }
    requires after { comes_plain props.old prop ≡ true }
    ensures pushed { OnOk result (props.new ≡ props.old ++ prop ∷ []) }
    ensures sorted { IsStrictlySorted prop_cmp props.new }
{
    match props.insert_sorted(prop) {
        Ok(()) => Ok(()),
        Err(InsertEnd::NoMemory) => Err(NoMemory),
        Err(InsertEnd::Duplicate(_)) => unreachable!(),
    }
}

/// A list of properties.
pub(crate) fn read_props(alloc: Global, value: &Value) -> Result<Props<Vec<u8>>, ReadEnd>
    ensures { Reads (λ props. props) (plain_props (view value.now)) result }
{
    let values = unboxed(items(alloc, value)?);
    let mut props = Props::with_capacity(alloc, values.len())?;
    for item in values {
        let step = props.len() as u64;
        let prop = under(read_next_prop(alloc, &props, item), step)?;
        push_prop(&mut props, prop)?;
    }
    Ok(props)
}
