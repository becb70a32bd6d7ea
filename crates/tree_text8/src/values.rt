//! Values whose texts are converted.
ghost use Rattle.std.specs.Prelude.{◌≡◌, ℕ, [], map, Some, IfOk, IfErr};
ghost use Rattle.text8_model.specs.Unicode as plain;
ghost use Rattle.prop_values.specs.Meaning.{value_of};
ghost use Rattle.tree_text8.specs.Ends.{IsBadIn};
ghost use Rattle.tree_text8.specs.Meaning.{plain_page};

use crate::ends::PartEnd;
use crate::pages::Page;
use crate::texts::wide_blob;
use carrier_io::Blob;
use prop_values::copy::copy_value;
use prop_values::{Kind, Parts, Value};
use std::alloc::Global;

/// The texts of a MultipleString8 in units.
fn wide_parts<B: Blob>(
    alloc: Global,
    page: Page,
    list: &Parts<B>,
) -> Result<Parts<Vec<u8>>, PartEnd>
    ensures good { IfOk result (λ _. (code n : ℕ) → plain.bad_elements code n (plain_page page) 0 list.now ≡ []) }
    ensures ok { IfOk result (λ r. r ≡ map (plain.wide_bytes (plain_page page)) list.now) }
    ensures bad { IfErr result (IsBadIn (λ code n. plain.bad_elements code n (plain_page page) 0 list.now)) }
{
    let mut all = Parts::with_capacity(alloc, list.len())?;
    for k in 0..list.len() {
        match wide_blob(alloc, page, list.get(k)) {
            Ok(wide) => all.push(wide)?,
            Err(end) => return Err(end.in_element(k)),
        }
    }
    Ok(all)
}

/// A value with its texts in units.
pub(crate) fn wide_value<B: Blob>(
    alloc: Global,
    page: Page,
    value: &Value<B>,
) -> Result<Value<Vec<u8>>, PartEnd>
    ensures good { IfOk result (λ _. (code n : ℕ) → plain.bad_value code n (Some (plain_page page)) (value_of B.bytes value.now) ≡ []) }
    ensures ok { IfOk result (λ r. value_of (λ v. v.items) r ≡ plain.wide_value (plain_page page) (value_of B.bytes value.now)) }
    ensures bad { IfErr result (IsBadIn (λ code n. plain.bad_value code n (Some (plain_page page)) (value_of B.bytes value.now))) }
{
    match value {
        Value::Bytes { bytes, .. } => Ok(Value::Bytes {
            kind: Kind::String,
            bytes: wide_blob(alloc, page, bytes)?,
        }),
        Value::Parts { list, .. } => Ok(Value::Parts {
            kind: Kind::MultipleString,
            list: wide_parts(alloc, page, list)?,
        }),
        _ => Ok(copy_value(alloc, value)?),
    }
}
