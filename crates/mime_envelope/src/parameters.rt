//! The Content-Type field's value.
ghost use Rattle.std.specs.Prelude.{◌≡◌, ◌≤◌, length, IfOk};
ghost use Rattle.mail_model.specs.Lines as text;
ghost use Rattle.mail_model.specs.Entities as entity;
ghost use Rattle.mime_envelope.specs.Views.{text_view};

use crate::text::{before, behind, count_blanks, find, is_word, same_word, trim};
use carrier_io::NoMemory;
use std::alloc::Global;

/// Whether the value says that the entity is a TNEF stream.
pub fn is_tnef(value: &[u8]) -> bool
    ensures { result ≡ entity.is_tnef value.now }
{
    let kind = before(b';', value);
    is_word(b"application/ms-tnef", kind) || is_word(b"application/vnd.ms-tnef", kind)
}

/// Whether the value says that the entity is a multipart.
pub fn is_multipart(value: &[u8]) -> bool
    ensures { result ≡ entity.is_multipart value.now }
{
    let kind = trim(before(b';', value));
    let (front, _) = kind.split_at(kind.len().min(10));
    same_word(b"multipart/", front)
}

/// Whether a parameter begins here: there is `=` before the next semicolon.
fn is_parameter(rest: &[u8]) -> bool
    ensures { result ≡ entity.is_parameter rest.now }
{
    let parameter = before(b';', rest);
    find(b'=', parameter) < parameter.len()
}

/// The value of the parameter that begins here, without the blanks before it, and all that follows it.
fn value_on(rest: &[u8]) -> &[u8]
    ensures { result.now ≡ entity.value_on rest.now }
{
    let value = behind(b'=', rest);
    let (_, text) = value.split_at(count_blanks(value));
    text
}

/// Whether the value stands in double quotes.
fn is_quoted(value: &[u8]) -> bool
    ensures { result ≡ entity.is_quoted value.now }
{
    match value {
        [] => false,
        [first, ..] => *first == b'"',
    }
}

/// The text in double quotes, from behind the first one.
fn unquoted(alloc: Global, text: &[u8]) -> Result<Vec<u8>, NoMemory>
    ensures { IfOk result (λ v. v.items ≡ entity.unquoted text.now) }
{
    let mut value = Vec::new(alloc);
    let mut is_escaped = false;
    for c in text {
        if is_escaped {
            value.push(*c)?;
            is_escaped = false;
        } else if *c == b'"' {
            return Ok(value);
        } else if *c == b'\\' {
            is_escaped = true;
        } else {
            value.push(*c)?;
        }
    }
    if is_escaped {
        value.push(b'\\')?;
    }
    Ok(value)
}

/// How many bytes that text has, with its escapes and the double quote that ends it.
fn quoted_size(text: &[u8]) -> usize
    ensures value { result ≡ entity.quoted_size text.now }
    ensures within { result ≤ length text.now }
{
    let mut is_escaped = false;
    for (i, c) in text.iter().enumerate() {
        if is_escaped {
            is_escaped = false;
        } else if *c == b'"' {
            return i + 1;
        } else if *c == b'\\' {
            is_escaped = true;
        }
    }
    text.len()
}

/// The value of the parameter that begins here.
fn parameter_value(alloc: Global, rest: &[u8]) -> Result<Vec<u8>, NoMemory>
    ensures { IfOk result (λ v. v.items ≡ entity.parameter_value rest.now) }
{
    let value = value_on(rest);
    if is_quoted(value) {
        let (_, text) = value.split_at(1);
        unquoted(alloc, text)
    } else {
        Ok(trim(behind(b'=', before(b';', rest))).to_vec(alloc)?)
    }
}

/// How many bytes from here on a semicolon doesn't end the parameter.
fn protected_size(rest: &[u8]) -> usize
    ensures value { result ≡ entity.protected_size rest.now }
    ensures within { result ≤ length rest.now }
{
    if !is_parameter(rest) {
        return 0;
    }
    let value = value_on(rest);
    if !is_quoted(value) {
        return 0;
    }
    let (_, text) = value.split_at(1);
    let (_, after) = text.split_at(quoted_size(text));
    rest.len() - after.len()
}

/// The first boundary parameter.
pub fn boundary_of(alloc: Global, value: &[u8]) -> Result<Option<Vec<u8>>, NoMemory>
    ensures { IfOk result (λ b. text_view b ≡ entity.boundary 0 value.now) }
{
    let mut rest = value;
    while find(b';', rest) < rest.len() {
        let parameter = behind(b';', rest);
        if is_parameter(parameter) && is_word(b"boundary", before(b'=', parameter)) {
            return Ok(Some(parameter_value(alloc, parameter)?));
        }
        let (_, after) = parameter.split_at(protected_size(parameter));
        rest = after;
    }
    Ok(None)
}
