//! Values of a JSON text, token by token. [RFC 8259]
ghost use Rattle.std.specs.Prelude.{◌≡◌, ◌<◌, ◌-◌, ◌++◌, ◌∷◌, [], length, true, false, is_some, Some, None, Err, IfOk, IfErr, OnOk};
ghost use Rattle.json.specs.Json.{items, members, number};
ghost use Rattle.serde_json.specs.Read.{number_of};
ghost use Rattle.json_values.specs.Ranges.{ranged_value};
ghost use Rattle.json_values.specs.Values.{json_items, json_members, value_view};

use crate::numbers::is_number_in_range;
use crate::texts::TextEnd;
use crate::value::{Value, boxed};
use json::{Reader, Token};
use std::alloc::Global;

/// How deep the values in an array or an object may nest.
fn levels_inside(levels: usize) -> Result<usize, TextEnd>
    ensures ok { IfOk result (λ inner. (0 < levels) × (inner ≡ levels - 1)) }
    ensures none { IfErr result (λ e. (e ≡ TextEnd.NotJson) × (levels ≡ 0)) }
{
    levels.checked_sub(1).ok_or(TextEnd::NotJson)
}

/// A number, where it is in range.
fn number_in_range<'a>(text: &'a str) -> Result<Value<'a>, TextEnd>
    ensures ok { IfOk result (λ v. (is_some (number_of text.now) ≡ true) × (value_view v ≡ number text.now)) }
    ensures none { IfErr result (λ e. (e ≡ TextEnd.NotJson) × (is_some (number_of text.now) ≡ false)) }
{
    if is_number_in_range(text) {
        Ok(Value::Number(text))
    } else {
        Err(TextEnd::NotJson)
    }
}

/// Puts an element behind the others. A list has room for one at first: most are short, and what a larger room leaves where
/// it is taken back is too small for the next one.
fn put_behind<T: Drop>(list: &mut Vec<T>, item: T) -> Result<(), TextEnd>
    ensures ok { OnOk result (list.new.items ≡ list.old.items ++ item ∷ []) }
    ensures memory { IfErr result (λ e. e ≡ TextEnd.NoMemory) }
{
    if list.len() == list.capacity() {
        list.reserve_exact(list.len().max(1))?;
    }
    match list.push(item) {
        Ok(()) => Ok(()),
        Err(_) => Err(TextEnd::NoMemory),
    }
}

/// The next value. Its numbers are in range, its arrays and objects nest at most so deep, and each takes room for what is in
/// it and no more.
#[cycle(read)]
pub(crate) fn read_value<'a>(
    alloc: Global,
    reader: &mut Reader<'a>,
    levels: usize,
) -> Result<Value<'a>, TextEnd>
    ensures ok { IfOk result (λ v. ranged_value levels reader.old ≡ Some (value_view v, reader.new)) }
    ensures shorter { OnOk result (length reader.new < length reader.old) }
    ensures none { result ≡ Err TextEnd.NotJson → ranged_value levels reader.old ≡ None }
{
    let token = reader.next().ok_or(TextEnd::NotJson)?;
    match token {
        Token::String(text) => Ok(Value::String(text)),
        Token::Number(text) => number_in_range(text),
        Token::Bool(truth) => Ok(Value::Bool(truth)),
        Token::Null => Ok(Value::Null),
        Token::BeginArray => {
            let inner = levels_inside(levels)?;
            Ok(Value::Array(boxed(alloc, read_items(alloc, reader, inner)?)?))
        }
        Token::BeginObject => {
            let inner = levels_inside(levels)?;
            Ok(Value::Object(boxed(alloc, read_members(alloc, reader, inner)?)?))
        }
        Token::EndArray | Token::EndObject | Token::Key(_) | Token::Bad => Err(TextEnd::NotJson),
    }
}

/// The elements of an array up to its closing bracket.
#[cycle(read)]
fn read_items<'a>(
    alloc: Global,
    reader: &mut Reader<'a>,
    levels: usize,
) -> Result<Vec<Value<'a>>, TextEnd>
    ensures ok { IfOk result (λ v. items (ranged_value levels) (length reader.old) reader.old ≡ Some (json_items v.items, reader.new)) }
    ensures shorter { OnOk result (length reader.new < length reader.old) }
    ensures none { result ≡ Err TextEnd.NotJson → items (ranged_value levels) (length reader.old) reader.old ≡ None }
{
    let mut found = Vec::new(alloc);
    while !reader.take_end_array() {
        let item = read_value(alloc, reader, levels)?;
        put_behind(&mut found, item)?;
    }
    found.shrink_to_fit();
    Ok(found)
}

/// The members of an object up to its closing bracket, as they come.
#[cycle(read)]
fn read_members<'a>(
    alloc: Global,
    reader: &mut Reader<'a>,
    levels: usize,
) -> Result<Vec<(&'a str, Value<'a>)>, TextEnd>
    ensures ok { IfOk result (λ v. members (ranged_value levels) (length reader.old) reader.old ≡ Some (json_members v.items, reader.new)) }
    ensures shorter { OnOk result (length reader.new < length reader.old) }
    ensures none { result ≡ Err TextEnd.NotJson → members (ranged_value levels) (length reader.old) reader.old ≡ None }
{
    let mut found = Vec::new(alloc);
    while let Some(key) = reader.next_key()? {
        let member = read_value(alloc, reader, levels)?;
        put_behind(&mut found, (key, member))?;
    }
    found.shrink_to_fit();
    Ok(found)
}
