//! Numbers in print.
ghost use Rattle.std.specs.Prelude.{decimal};
ghost use Rattle.carrier_io.specs.Known.{Writes};

use carrier_io::{Failed, Sink, write_pieces};
use itoa::Buffer;

/// Appends a number in decimal digits. A failure was counted by the sink.
pub fn write_decimal<W: Sink>(sink: &mut W, n: u64) -> Result<(), Failed>
    ensures { Writes (W.held sink.old) (W.held sink.new) (W.faults sink.old) (W.faults sink.new) result (decimal n) }
{
    if n < 10 {
        return write_pieces(sink, &[b'0' + n as u8]);
    }
    let mut buffer = Buffer::new();
    let text = buffer.format(n);
    write_pieces(sink, text.as_bytes())
}
