//! The search for the first TNEF part.
ghost use Rattle.std.specs.Prelude.{◌≡◌, ◌+◌, ◌<◌, ◌≤◌, ◌^◌, length, IfOk, IfSome};
ghost use Rattle.carrier_io.specs.Reads.{Gives};
ghost use Rattle.mail_model.specs.Lines as text;
ghost use Rattle.mail_model.specs.Entities as entity;
ghost use Rattle.mail_model.specs.Envelope as envelope;
ghost use Rattle.mime_envelope.specs.Parts.{found_view, boundary_test, first_in, part_at};

use crate::header::{Field, body_of, find_field};
use crate::marks::Marks;
use crate::parameters::{boundary_of, is_multipart, is_tnef};
use crate::part::Part;
use crate::parts::{has_closing, part_size};
use crate::text::split_line;
use carrier_io::{Fault, Reason, Stop};
use std::alloc::Global;

/// Whether a boundary has 1 to 70 bytes and doesn't end in a space.
fn is_boundary(bytes: &[u8]) -> bool
    ensures { result ≡ entity.is_boundary bytes.now }
{
    !bytes.is_empty() && bytes.len() <= 70 && !bytes.ends_with(b" ")
}

/// The marks of a multipart; its Content-Type field must give a boundary.
fn marks_of(alloc: Global, kind: &Field) -> Result<Marks, Stop>
    ensures { Gives (λ m. m.boundary.items) result (boundary_test kind.now.at (entity.boundary 0 kind.now.value.items)) }
{
    let fault = Fault {
        reason: Reason::BadBoundary,
        offset: kind.at,
    };
    let Some(boundary) = boundary_of(alloc, &kind.value)? else {
        return Err(Stop::Fault(fault));
    };
    if !is_boundary(&boundary) {
        return Err(Stop::Fault(fault));
    }
    Ok(Marks::new(alloc, boundary)?)
}

/// The first TNEF part of an entity at an offset, in which so many more multiparts may stand inside each other.
#[cycle(searching)]
pub fn search<'a>(
    alloc: Global,
    more: u8,
    at: u64,
    bytes: &'a [u8],
) -> Result<Option<Part<'a>>, Stop>
    requires { at + length bytes.now < 2 ^ 64 }
    ensures value { Gives found_view result (envelope.search more at bytes.now) }
    ensures within { IfOk result (λ f. IfSome f (λ p. p.place + length p.body.now ≤ at + length bytes.now)) }
{
    let (place, body) = body_of(at, bytes)?;
    let Some(kind) = find_field(alloc, b"content-type", at, bytes)? else {
        return Ok(None);
    };
    if is_tnef(&kind.value) {
        let encoding = find_field(alloc, b"content-transfer-encoding", at, bytes)?;
        return Ok(Some(Part {
            encoding,
            place,
            body,
        }));
    }
    if !is_multipart(&kind.value) {
        return Ok(None);
    }
    if more == 0 {
        return Err(Stop::Fault(Fault {
            reason: Reason::PartTooDeep,
            offset: kind.at,
        }));
    }
    let marks = marks_of(alloc, &kind)?;
    if !has_closing(&marks, body) {
        return Err(Stop::Fault(Fault {
            reason: Reason::MissingClose,
            offset: place + body.len() as u64,
        }));
    }
    search_parts(alloc, more - 1, &marks, place, body)
}

/// The first TNEF part in the parts of a multipart's body.
#[cycle(searching)]
fn search_parts<'a>(
    alloc: Global,
    more: u8,
    marks: &Marks,
    at: u64,
    bytes: &'a [u8],
) -> Result<Option<Part<'a>>, Stop>
    requires { at + length bytes.now < 2 ^ 64 }
    ensures value { Gives found_view result (first_in more marks.now.boundary.items at (text.lines bytes.now)) }
    ensures within { IfOk result (λ f. IfSome f (λ p. p.place + length p.body.now ≤ at + length bytes.now)) }
{
    let mut place = at;
    let mut rest = bytes;
    while !rest.is_empty() {
        let (line, after) = split_line(rest);
        if marks.closes(line) {
            return Ok(None);
        }
        place += line.len() as u64;
        let (part, others) = after.split_at(part_size(marks, after));
        if let Some(found) = search_part(alloc, more, marks.delimits(line), place, part)? {
            return Ok(Some(found));
        }
        place += part.len() as u64;
        rest = others;
    }
    Ok(None)
}

/// The first TNEF part in what stands between two delimiter lines, if it is a part.
#[cycle(searching)]
fn search_part<'a>(
    alloc: Global,
    more: u8,
    begins: bool,
    at: u64,
    bytes: &'a [u8],
) -> Result<Option<Part<'a>>, Stop>
    requires { at + length bytes.now < 2 ^ 64 }
    ensures value { Gives found_view result (part_at more begins at bytes.now) }
    ensures within { IfOk result (λ f. IfSome f (λ p. p.place + length p.body.now ≤ at + length bytes.now)) }
{
    if !begins {
        return Ok(None);
    }
    search(alloc, more, at, bytes)
}
