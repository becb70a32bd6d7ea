//! Attributes as they are written.
ghost use Rattle.std.specs.Prelude.{◌≡◌, ◌⊎◌, ◌∷◌, ◌++◌, ◌<◌, ◌^◌, length};
ghost use Rattle.carrier_io.specs.Known.{Writes};
ghost use Rattle.carrier_model.specs.Bytes as bytes;
ghost use Rattle.tnef_model.specs.Attributes.{attr, spelling};

use crate::sums::sum16;
use carrier_io::{Failed, Sink, le16, le32, write_parts};

/// Level, id and length: what stands before an attribute's value.
pub fn attribute_head(level: u8, id: u32, len: u32) -> [u8; 9]
    ensures { result ≡ level ∷ (bytes.le32 id ++ bytes.le32 len) }
{
    let id = le32(id);
    let len = le32(len);
    [
        level, id[0], id[1], id[2], id[3], len[0], len[1], len[2], len[3],
    ]
}

/// Appends an attribute: its head, its value and its sum. Failed says that the sink failed.
pub fn write_attribute<W: Sink>(
    sink: &mut W,
    level: u8,
    id: u32,
    value: &[u8],
) -> Result<(), Failed>
    requires level { (level ≡ 1) ⊎ (level ≡ 2) }
    requires few { length value.now < 2 ^ 32 }
    ensures { Writes (W.held sink.old) (W.held sink.new) (W.faults sink.old) (W.faults sink.new) result (spelling (attr level id 0 value.now)) }
{
    let head = attribute_head(level, id, value.len() as u32);
    write_parts(sink, &[&head, value, &le16(sum16(value))])
}
