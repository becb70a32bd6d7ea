//! Contents and parts that are appended and added up.
ghost use Rattle.carrier_io.specs.Known.{joined};
ghost use Rattle.carrier_io.specs.Summed.{Sums};
ghost use Rattle.cfb_list.specs.Contents.{bytes_seen};

use carrier_io::{Blob, Failed, Sink, append, append_blob, append_zeros};
use cfb_list::ContentView;

/// Appends the bytes of a content.
pub fn append_content<B: Blob, W: Sink>(
    sink: &mut W,
    content: &ContentView<'_, B>,
) -> Result<u16, Failed>
    ensures { Sums (W.held sink.old) (W.held sink.new) (W.faults sink.old) (W.faults sink.new) result (bytes_seen B.bytes content.now) }
{
    match content {
        ContentView::Own(bytes) => append(sink, bytes),
        ContentView::Value { bytes, zeros } => {
            let value = append_blob(sink, *bytes)?;
            let padding = append_zeros(sink, u64::from(*zeros))?;
            Ok(value.wrapping_add(padding))
        }
    }
}

/// Appends parts one behind the other.
pub fn append_parts<W: Sink>(sink: &mut W, parts: &[&[u8]]) -> Result<u16, Failed>
    ensures { Sums (W.held sink.old) (W.held sink.new) (W.faults sink.old) (W.faults sink.new) result (joined parts.now) }
{
    let mut sum = 0u16;
    for part in parts {
        sum = sum.wrapping_add(append(sink, part)?);
    }
    Ok(sum)
}
