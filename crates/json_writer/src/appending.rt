//! Bytes that are appended and counted.
ghost use Rattle.std.specs.Prelude.{◌≡◌};
ghost use Rattle.serde_json.specs.Written.{comma_if};
ghost use Rattle.json_writer.specs.Counted.{Counts};

use carrier_io::{Failed, Sink, write_pieces};

/// Appends all the bytes, and adds to the count how many there are; it stays at the greatest u64. Failed says that the
/// sink failed; then a front of them may stand there.
#[inline(always)]
pub fn append<W: Sink>(sink: &mut W, count: &mut u64, bytes: &[u8]) -> Result<(), Failed>
    ensures { Counts (W.held sink.old) (W.held sink.new) (W.faults sink.old) (W.faults sink.new) count.old count.new result bytes.now }
{
    write_pieces(sink, bytes)?;
    *count = count.saturating_add(bytes.len() as u64);
    Ok(())
}

/// What stands before a value of an array: a comma, where it is a later one than the first. [RFC 8259, section 5]
pub fn separator(later: bool) -> &'static [u8]
    ensures { result.now ≡ comma_if later }
{
    if later { b"," } else { b"" }
}
