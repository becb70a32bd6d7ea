//! Writing the canonical envelope.
ghost use Rattle.std.specs.Prelude.{◌≡◌, ℕ, ◌≤◌, ◌++◌, List, length};
ghost use Rattle.carrier_io.specs.Known.{Writes};
ghost use Rattle.mail_model.specs.Base64.{base64_text};
ghost use Rattle.mail_model.specs.EnvelopeText.{line_end, body_lines, envelope_of};

use crate::coder::Coder;
use carrier_io::{Failed, Sink, Writing, write_pieces};

const HEAD_SIZE: u64 = 168;

const LINE_BYTES: usize = 57;

const LINE_CHARACTERS: u64 = 76;

/// Bytes whose canonical envelope is to be written.
#[derive(Clone, Copy, Debug)]
pub struct Wrapped<'a> {
    pub bytes: &'a [u8],
}

impl<'a> Writing for Wrapped<'a> {
    ghost text = { λ w. envelope_of w.bytes.now };

    fn write_to<W: Sink>(&self, sink: &mut W) -> Result<(), Failed> {
        write_envelope(self.bytes, sink)
    }
}

/// The length in bytes of the canonical envelope of so many bytes.
pub fn envelope_size(len: u64) -> u64
    requires { len ≤ 268435456 }
    ensures { (bytes : List ℕ) → length bytes ≡ len → length (envelope_of bytes) ≡ result }
{
    let characters = len.div_ceil(3) * 4;
    HEAD_SIZE + characters + characters.div_ceil(LINE_CHARACTERS) * 2
}

/// Appends the canonical envelope of the bytes (RFC 2045): the header of a TNEF part, and base64 in lines of 76
/// characters. Failed says that the sink failed; then a front of them may stand there.
pub fn write_envelope<W: Sink>(bytes: &[u8], sink: &mut W) -> Result<(), Failed>
    ensures { Writes (W.held sink.old) (W.held sink.new) (W.faults sink.old) (W.faults sink.new) result (envelope_of bytes.now) }
{
    write_pieces(
        sink,
        b"MIME-Version: 1.0\r\nContent-Type: application/ms-tnef; name=\"winmail.dat\"\r\nContent-Transfer-Encoding: base64\r\nContent-Disposition: attachment; filename=\"winmail.dat\"\r\n\r\n",
    )?;
    write_body(bytes, sink)
}

/// Appends the base64 text of the bytes, line by line.
fn write_body<W: Sink>(bytes: &[u8], sink: &mut W) -> Result<(), Failed>
    ensures { Writes (W.held sink.old) (W.held sink.new) (W.faults sink.old) (W.faults sink.new) result (body_lines bytes.now) }
{
    let coder = Coder::new();
    let mut rest = bytes;
    while !rest.is_empty() {
        let (line, after) = rest.split_at(rest.len().min(LINE_BYTES));
        write_line(&coder, line, sink)?;
        rest = after;
    }
    Ok(())
}

/// Appends a line of the body.
fn write_line<W: Sink>(coder: &Coder, line: &[u8], sink: &mut W) -> Result<(), Failed>
    requires { length line.now ≤ 57 }
    ensures { Writes (W.held sink.old) (W.held sink.new) (W.faults sink.old) (W.faults sink.new) result (base64_text line.now ++ line_end) }
{
    let mut text = [0u8; 78];
    let size = coder.encode_line(line, &mut text);
    text[size] = b'\r';
    text[size + 1] = b'\n';
    write_pieces(sink, &text[..size + 2])
}
