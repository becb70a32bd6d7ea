//! The units of bytes.
ghost use Rattle.std.specs.Prelude.{◌≡◌, IfOk};
ghost use Rattle.carrier_model.specs.Bytes.{units_of};

use carrier_io::{NoMemory, Units};
use std::alloc::Global;

/// The units that bytes are, the low byte of each first; a last byte by itself is none. NoMemory says that memory ran
/// out.
pub fn units_of_bytes(alloc: Global, bytes: &[u8]) -> Result<Units, NoMemory>
    ensures { IfOk result (λ units. units ≡ units_of bytes.now) }
{
    let mut list = Vec::new(alloc);
    list.resize(bytes.len() / 2, 0)?;
    for k in 0..list.len() {
        list[k] = u16::from_le_bytes([bytes[2 * k], bytes[2 * k + 1]]);
    }
    Ok(Units::from_vec(list))
}
