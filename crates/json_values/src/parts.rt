//! What is in a JSON value.
ghost use Rattle.std.specs.Prelude.{◌≡◌, is_some, map, option_and_then, option_map};
ghost use Rattle.std.specs.List.{list_all};
ghost use Rattle.serde_json.specs.Find.{get as plain_get, as_array, as_number, as_str as plain_str, as_u64 as plain_u64};
ghost use Rattle.json.specs.Find.{as_number as plain_number, get_member};
ghost use Rattle.json_values.specs.Values.{in_box, json_members, value_view};
ghost use Rattle.json_values.specs.View.{view, items_view};
ghost use Rattle.json_values.specs.Keys.{is_among as plain_among, keys_of};

use crate::numbers::unsigned_in;
use crate::value::{Boxed, Value, unboxed};

/// The text of a string.
pub fn as_str<'a>(value: &Value<'a>) -> Option<&'a str>
    ensures { option_map (λ s. s.now) result ≡ plain_str (view value.now) }
{
    match value {
        Value::String(text) => Some(text),
        _ => None,
    }
}

/// The elements of an array.
pub fn as_items<'v, 'a>(value: &'v Value<'a>) -> Option<&'v Boxed<Value<'a>>>
    ensures { option_map (λ items. items_view (in_box items.now)) result ≡ as_array (view value.now) }
{
    match value {
        Value::Array(items) => Some(items),
        _ => None,
    }
}

/// The text of a number.
fn as_number<'a>(value: &Value<'a>) -> Option<&'a str>
    ensures { option_map (λ s. s.now) result ≡ plain_number (value_view value.now) }
{
    match value {
        Value::Number(text) => Some(text),
        _ => None,
    }
}

/// Whether a value is a number.
pub fn is_number(value: &Value<'_>) -> bool
    ensures { result ≡ is_some (as_number (view value.now)) }
{
    as_number(value).is_some()
}

/// A whole number below 2^64.
pub fn as_u64(value: &Value<'_>) -> Option<u64>
    ensures { result ≡ option_and_then plain_u64 (as_number (view value.now)) }
{
    unsigned_in(as_number(value)?)
}

/// Of the members with a name the last.
fn last_named<'v, 'a>(members: &'v [(&'a str, Value<'a>)], name: &str) -> Option<&'v Value<'a>>
    ensures { option_map (λ v. value_view v.now) result ≡ get_member name.now (json_members members.now) }
{
    let mut last = None;
    for member in members {
        if member.0 == name {
            last = Some(&member.1);
        }
    }
    last
}

/// The member of an object: of the members with that name the last.
pub fn get<'v, 'a>(value: &'v Value<'a>, name: &str) -> Option<&'v Value<'a>>
    ensures { option_map (λ v. view v.now) result ≡ plain_get name.now (view value.now) }
{
    match value {
        Value::Object(members) => last_named(unboxed(members), name),
        _ => None,
    }
}

fn is_among(key: &str, names: &[&str]) -> bool
    ensures { result ≡ plain_among (map (λ name. name.now) names.now) key.now }
{
    for name in names {
        if *name == key {
            return true;
        }
    }
    false
}

/// Whether an object has no members but those of these names; so too of a value that is no object.
pub fn has_only(value: &Value<'_>, names: &[&str]) -> bool
    ensures { result ≡ list_all (plain_among (map (λ name. name.now) names.now)) (keys_of (view value.now)) }
{
    let Value::Object(members) = value else {
        return true;
    };
    for member in unboxed(members) {
        if !is_among(member.0, names) {
            return false;
        }
    }
    true
}
