//! The header of a mail entity.
ghost use Rattle.std.specs.Prelude.{◌≡◌, ◌+◌, ◌<◌, ◌^◌, ◌++◌, length, true, IfOk, MatchResult, Ok, Err};
ghost use Rattle.carrier_io.specs.Reasons.{fault_of};
ghost use Rattle.mail_model.specs.Lines as text;
ghost use Rattle.mail_model.specs.Entities as entity;
ghost use Rattle.mime_envelope.specs.Views.{field_view};

use crate::text::{behind, find, is_blank, is_word, split_line, without_end};
use carrier_io::{Fault, NoMemory, Reason};
use std::alloc::Global;

/// A header field that was looked for.
#[derive(Debug, Drop)]
pub struct Field {
    /// The offset of its line's first byte.
    pub at: u64,
    /// Its text behind the colon, with the line ends taken out.
    pub value: Vec<u8>,
}

/// Whether nothing stands before the line's end.
fn is_empty(line: &[u8]) -> bool
    ensures { result ≡ entity.is_empty line.now }
{
    without_end(line).is_empty()
}

/// Whether the line begins with a space or a tab.
fn begins_blank(line: &[u8]) -> bool
    ensures { result ≡ entity.begins_blank line.now }
{
    match line {
        [] => false,
        [first, ..] => is_blank(*first),
    }
}

/// Whether a header line is refused: it continues none, or has no colon.
fn is_refused(is_first: bool, line: &[u8]) -> bool
    ensures { result ≡ entity.is_refused is_first line.now }
{
    if begins_blank(line) {
        is_first
    } else {
        find(b':', line) >= line.len()
    }
}

/// Tests the header lines of an entity at an offset, and gives its body with its offset.
pub fn body_of(at: u64, bytes: &[u8]) -> Result<(u64, &[u8]), Fault>
    requires { at + length bytes.now < 2 ^ 64 }
    ensures value { MatchResult result (λ b. entity.body_of true at (text.lines bytes.now) ≡ Ok (b.0, text.lines b.1.now))
        (λ g. entity.body_of true at (text.lines bytes.now) ≡ Err (fault_of g)) }
    ensures within { IfOk result (λ b. b.0 + length b.1.now ≡ at + length bytes.now) }
{
    let mut is_first = true;
    let mut place = at;
    let mut rest = bytes;
    while !rest.is_empty() {
        let (line, after) = split_line(rest);
        let next = place + line.len() as u64;
        if is_empty(line) {
            return Ok((next, after));
        }
        if is_refused(is_first, line) {
            return Err(Fault {
                reason: Reason::BadHeaderLine,
                offset: place,
            });
        }
        is_first = false;
        place = next;
        rest = after;
    }
    Ok((place, rest))
}

/// A text and that of the lines behind it that continue it.
fn unfolded(alloc: Global, first: &[u8], lines: &[u8]) -> Result<Vec<u8>, NoMemory>
    ensures { IfOk result (λ v. v.items ≡ first.now ++ entity.continued (text.lines lines.now)) }
{
    let mut value = first.to_vec(alloc)?;
    let mut rest = lines;
    while !rest.is_empty() {
        let (line, after) = split_line(rest);
        if !begins_blank(line) {
            break;
        }
        value.extend_from_slice(without_end(line))?;
        rest = after;
    }
    Ok(value)
}

/// The first header field of this name, of an entity at an offset.
pub fn find_field(
    alloc: Global,
    name: &[u8],
    at: u64,
    bytes: &[u8],
) -> Result<Option<Field>, NoMemory>
    requires { at + length bytes.now < 2 ^ 64 }
    ensures { IfOk result (λ f. field_view f ≡ entity.field name.now at (text.lines bytes.now)) }
{
    let mut place = at;
    let mut rest = bytes;
    while !rest.is_empty() {
        let (line, after) = split_line(rest);
        if is_empty(line) {
            break;
        }
        let (before, _) = line.split_at(find(b':', line));
        if !begins_blank(line) && is_word(name, before) {
            let value = unfolded(alloc, behind(b':', without_end(line)), after)?;
            return Ok(Some(Field { at: place, value }));
        }
        place += line.len() as u64;
        rest = after;
    }
    Ok(None)
}
