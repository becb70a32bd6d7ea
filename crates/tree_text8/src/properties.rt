//! Properties whose texts are converted.
ghost use Rattle.std.specs.Prelude.{◌≡◌, ◌+◌, [], length, map, List, IsTrue, OnOk, IfOk, IfErr};
ghost use Rattle.std.specs.Option.{option_map};
ghost use Rattle.carrier_model.specs.Sorted.{IsStrictlySorted};
ghost use Rattle.carrier_model.specs.Values.{Prop as PlainProp, prop_cmp};
ghost use Rattle.text8_model.specs.Unicode as plain;
ghost use Rattle.prop_values.specs.Kinds.{kind_number};
ghost use Rattle.prop_values.specs.Meaning.{value_of};
ghost use Rattle.tree_text8.specs.Ends.{IsEndOf};
ghost use Rattle.tree_text8.specs.Narrow.{are_narrow};
ghost use Rattle.tree_text8.specs.Walks.{AreOne, bad_where, converted_where};

use crate::ends::{TextEnd, Unmapped, Why};
use crate::pages::page_of;
use crate::values::wide_value;
use carrier_io::{Blob, Holds, NoMemory};
use prop_values::{Kind, Prop, Props, Value};
use std::alloc::Global;
use std::mem::replace;

/// The kind of what a text of 8-bit characters becomes; None for other values. [MS-OXCDATA 2.11.1]
fn wide_kind<B: Blob>(value: &Value<B>) -> Option<Kind>
    ensures { option_map kind_number result ≡ plain.wide_kind (value_of B.bytes value.now) }
{
    match value {
        Value::Bytes {
            kind: Kind::String8,
            ..
        } => Some(Kind::String),
        Value::Parts {
            kind: Kind::MultipleString8,
            ..
        } => Some(Kind::MultipleString),
        _ => None,
    }
}

/// Whether a property of a list is converted: a text of 8-bit characters, where the list doesn't have its key with the
/// kind that it would become.
fn is_to_convert<B: Blob>(props: &Props<B>, prop: &Prop<B>) -> bool
    ensures is { result ≡ plain.is_to_convert props.now prop.now }
    ensures sorted { IsTrue result → IsStrictlySorted prop_cmp props.now }
{
    match wide_kind(&prop.value) {
        Some(kind) => props.find(&prop.key, kind).is_none(),
        None => false,
    }
}

/// Which properties of a list are converted.
fn marks<B: Blob>(alloc: Global, props: &Props<B>) -> Result<Vec<bool>, NoMemory>
    ensures { IfOk result (λ marks. marks.items ≡ map (plain.is_to_convert props.now) props.now) }
{
    let mut marks = Vec::with_capacity(alloc, props.len())?;
    for k in 0..props.len() {
        marks.push(is_to_convert(props, props.get(k)))?;
    }
    Ok(marks)
}

/// A property with its texts in units, where it is marked as one that is converted. The property has a number, and the page
/// its own.
fn convert_prop<C: Holds<Vec<u8>>>(
    alloc: Global,
    code: u32,
    prop: Prop<C>,
    marked: bool,
    number: u64,
) -> Result<Prop<C>, TextEnd>
    requires { (props : List PlainProp) × (plain.is_to_convert props prop ≡ marked) }
    ensures good { IfOk result (λ _. bad_where marked code number prop ≡ []) }
    ensures ok { IfOk result (λ r. r ≡ converted_where marked code prop) }
    ensures end { IfErr result (IsEndOf (bad_where marked code number prop)) }
{
    if !marked {
        return Ok(prop);
    }
    let Some(page) = page_of(code) else {
        return Err(TextEnd::Unmapped(Unmapped {
            why: Why::Page,
            property: number,
            element: 0,
            at: 0,
            page: code,
        }));
    };
    let Prop { key, value } = prop;
    match wide_value(alloc, page, &value) {
        Ok(wide) => {
            let value = wide.into_held(alloc)?;
            Ok(Prop { key, value })
        }
        Err(end) => Err(end.of_property(code, number)),
    }
}

/// Whether any property of a list is converted.
pub(crate) fn any_to_convert<B: Blob>(props: &Props<B>) -> bool
    ensures value { result ≡ are_narrow props.now }
    ensures sorted { IsTrue result → IsStrictlySorted prop_cmp props.now }
{
    for k in 0..props.len() {
        if is_to_convert(props, props.get(k)) {
            return true;
        }
    }
    false
}

/// A list with its texts in units, whose first property has a number. The properties that stay as they are move over.
fn convert_each<C: Holds<Vec<u8>>>(
    alloc: Global,
    code: u32,
    props: Props<C>,
    first: u64,
) -> Result<Props<C>, TextEnd>
    requires { IsStrictlySorted prop_cmp props }
    ensures good { IfOk result (λ _. plain.bad_props code first props ≡ []) }
    ensures ok { IfOk result (λ r. r ≡ plain.converted_props code props) }
    ensures end { IfErr result (IsEndOf (plain.bad_props code first props)) }
{
    let marks = marks(alloc, &props)?;
    let mut all = Props::with_capacity(alloc, props.len())?;
    let mut k = 0;
    for prop in props.into_list() {
        let number = first.saturating_add(k as u64);
        let prop = convert_prop(alloc, code, prop, marks[k], number)?;
        all.push_last(prop)?;
        k += 1;
    }
    Ok(all)
}

/// Converts the texts of a list into units. `next` is the number of its first property, and becomes the number of the first
/// one behind it; it stays at the greatest `u64` where the true one is larger. A list that isn't converted wholly is of no
/// use.
pub(crate) fn convert_props<C: Holds<Vec<u8>>>(
    alloc: Global,
    code: u32,
    props: &mut Props<C>,
    next: &mut u64,
) -> Result<(), TextEnd>
    ensures good { OnOk result (plain.bad_props code next.old props.old ≡ []) }
    ensures ok { OnOk result (props.new ≡ plain.converted_props code props.old) }
    ensures next { OnOk result (AreOne next.new (next.old + length props.old)) }
    ensures end { IfErr result (IsEndOf (plain.bad_props code next.old props.old)) }
{
    let first = *next;
    *next = first.saturating_add(props.len() as u64);
    if any_to_convert(props) {
        let list = replace(props, Props::new(alloc));
        *props = convert_each(alloc, code, list, first)?;
    }
    Ok(())
}
