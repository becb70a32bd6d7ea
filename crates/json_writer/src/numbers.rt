//! Numbers.
ghost use Rattle.serde_json.specs.Written.{compact_text};
ghost use Rattle.json_model.specs.Properties.{number_json};
ghost use Rattle.json_writer.specs.Counted.{Counts};

use crate::appending::append;
use carrier_io::{Failed, Sink};
use itoa::Buffer;

/// Appends a number in decimal digits. Failed says that the sink failed.
pub fn append_number<W: Sink>(sink: &mut W, count: &mut u64, n: u64) -> Result<(), Failed>
    ensures { Counts (W.held sink.old) (W.held sink.new) (W.faults sink.old) (W.faults sink.new) count.old count.new result (compact_text (number_json n)) }
{
    let mut buffer = Buffer::new();
    let text = buffer.format(n);
    append(sink, count, text.as_bytes())
}
