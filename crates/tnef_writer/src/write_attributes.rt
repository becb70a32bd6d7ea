//! Attributes that are appended and added up.
ghost use Rattle.std.specs.Prelude.{◌<◌, ◌^◌, length};
ghost use Rattle.tnef_model.specs.TnefCanonical.{attribute};
ghost use Rattle.carrier_io.specs.Summed.{Sums};

use carrier_io::{Failed, Sink, append, le16};
use tnef_attributes::attribute_head;

/// Appends an attribute: its head, its value and its sum.
pub fn append_attribute<W: Sink>(
    sink: &mut W,
    level: u8,
    id: u32,
    value: &[u8],
) -> Result<u16, Failed>
    requires { length value.now < 2 ^ 32 }
    ensures { Sums (W.held sink.old) (W.held sink.new) (W.faults sink.old) (W.faults sink.new) result (attribute level id value.now) }
{
    let head = append(sink, &attribute_head(level, id, value.len() as u32))?;
    let content = append(sink, value)?;
    let sum = append(sink, &le16(content))?;
    Ok(head.wrapping_add(content.wrapping_add(sum)))
}
