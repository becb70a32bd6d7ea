//! Parts of JSON values: members by name, arrays, strings and numbers. [RFC 8259]
ghost use Rattle.std.specs.Prelude.{◌≡◌, ◌+◌, IsTrue, is_some, map};
ghost use Rattle.std.specs.List.{list_all};
ghost use Rattle.serde_json.specs.Find.{get as find};
ghost use Rattle.json_model.specs.Parts.{has_members as has_plain, member_at, items_at, string_at, number_below};
ghost use Rattle.json_values.specs.Keys.{are_apart};
ghost use Rattle.json_values.specs.Values.{in_box};
ghost use Rattle.json_values.specs.View.{view, items_view};
ghost use Rattle.tree_from_json.specs.Ends.{Reads};

use crate::read_ends::{JsonWhy, ReadEnd, fault_here};
use json_values::{Boxed, Value, as_items, as_str, as_u64, get, has_only, is_number};
use std::alloc::Global;

/// Whether an object has all members of these names.
fn has_all(value: &Value, names: &[&str]) -> bool
    ensures { result ≡ list_all (λ name. is_some (find name (view value.now))) (map (λ name. name.now) names.now) }
{
    for name in names {
        if get(value, name).is_none() {
            return false;
        }
    }
    true
}

/// Whether a value is an object with these members and no others.
pub(crate) fn has_members(value: &Value, names: &[&str]) -> bool
    requires { IsTrue (are_apart (map (λ name. name.now) names.now)) }
    ensures { result ≡ has_plain (map (λ name. name.now) names.now) (view value.now) }
{
    has_only(value, names) && has_all(value, names)
}

/// The member of an object.
pub(crate) fn member<'v, 'a>(
    alloc: Global,
    value: &'v Value<'a>,
    name: &str,
) -> Result<&'v Value<'a>, ReadEnd>
    ensures { Reads (λ v. view v.now) (member_at name.now (view value.now)) result }
{
    match get(value, name) {
        Some(member) => Ok(member),
        None => Err(fault_here(alloc, JsonWhy::Form)),
    }
}

/// The elements of an array.
pub(crate) fn items<'v, 'a>(
    alloc: Global,
    value: &'v Value<'a>,
) -> Result<&'v Boxed<Value<'a>>, ReadEnd>
    ensures { Reads (λ items. items_view (in_box items.now)) (items_at (view value.now)) result }
{
    match as_items(value) {
        Some(items) => Ok(items),
        None => Err(fault_here(alloc, JsonWhy::Form)),
    }
}

/// The text of a string.
pub(crate) fn string<'a>(alloc: Global, value: &Value<'a>) -> Result<&'a str, ReadEnd>
    ensures { Reads (λ s. s.now) (string_at (view value.now)) result }
{
    match as_str(value) {
        Some(text) => Ok(text),
        None => Err(fault_here(alloc, JsonWhy::Form)),
    }
}

/// A whole number up to the greatest that it may be.
pub(crate) fn number_up_to(alloc: Global, value: &Value, most: u64) -> Result<u64, ReadEnd>
    ensures { Reads (λ n. n) (number_below (most + 1) (view value.now)) result }
{
    if !is_number(value) {
        return Err(fault_here(alloc, JsonWhy::Form));
    }
    match as_u64(value) {
        Some(number) if number <= most => Ok(number),
        _ => Err(fault_here(alloc, JsonWhy::Range)),
    }
}
