//! The parts of a multipart.
ghost use Rattle.std.specs.Prelude.{◌≡◌, ◌≤◌, length, take};
ghost use Rattle.std.specs.List.{concat, list_any};
ghost use Rattle.mail_model.specs.Lines as text;
ghost use Rattle.mail_model.specs.Entities as entity;
ghost use Rattle.mime_envelope.specs.Parts.{NoPartBefore};

use crate::marks::Marks;
use crate::text::split_line;

/// Whether one of the lines closes the multipart.
pub fn has_closing(marks: &Marks, bytes: &[u8]) -> bool
    ensures { result ≡ list_any (entity.is_closing marks.now.boundary.items) (text.lines bytes.now) }
{
    let mut rest = marks.next_mark(bytes);
    while !rest.is_empty() {
        let (line, after) = split_line(rest);
        if marks.closes(line) {
            return true;
        }
        rest = marks.next_mark(after);
    }
    false
}

/// How many bytes the part that begins here has.
pub fn part_size(marks: &Marks, bytes: &[u8]) -> usize
    ensures value { take result bytes.now ≡ concat (entity.part_from marks.now.boundary.items (text.lines bytes.now)) }
    ensures within { result ≤ length bytes.now }
    ensures others { NoPartBefore marks.now.boundary.items result bytes.now }
{
    let mut rest = marks.next_mark(bytes);
    while !rest.is_empty() {
        let (line, after) = split_line(rest);
        if marks.closes(line) {
            return bytes.len() - rest.len();
        }
        if marks.delimits(line) {
            return bytes.len() - rest.len();
        }
        rest = marks.next_mark(after);
    }
    bytes.len()
}
