//! Names of storages.
ghost use Rattle.std.specs.Prelude.{◌≡◌, IfOk};
ghost use Rattle.msg_model.specs.StreamNames as plain;
ghost use Rattle.msg_model.specs.WrittenMsg.{OBJECT_TAG};

use carrier_io::NoMemory;
use std::alloc::Global;

/// What the name of a recipient's storage begins with. [MS-OXMSG 2.2.1]
pub const RECIPIENT: &[u8] = b"__recip_version1.0_#";

/// What the name of an attachment's storage begins with. [MS-OXMSG 2.2.2]
pub const ATTACHMENT: &[u8] = b"__attach_version1.0_#";

/// The storage of what an attachment holds. [MS-OXMSG 2.2.2]
pub const OBJECT: &str = "__substg1.0_3701000D";

/// What the name of a recipient's storage begins with, in units. [MS-OXMSG 2.2.1]
pub const RECIPIENT_UNITS: &[u16] = &[
    95, 95, 114, 101, 99, 105, 112, 95, 118, 101, 114, 115, 105, 111, 110, 49, 46, 48, 95, 35,
];

/// What the name of an attachment's storage begins with, in units. [MS-OXMSG 2.2.2]
pub const ATTACHMENT_UNITS: &[u16] = &[
    95, 95, 97, 116, 116, 97, 99, 104, 95, 118, 101, 114, 115, 105, 111, 110, 49, 46, 48, 95, 35,
];

/// The units of the name of the storage of what an attachment holds. [MS-OXMSG 2.2.2]
pub fn object_units(alloc: Global) -> Result<Vec<u16>, NoMemory>
    ensures { IfOk result (λ units. units.items ≡ plain.value_name OBJECT_TAG) }
{
    let mut units = Vec::with_capacity(alloc, OBJECT.len())?;
    for byte in OBJECT.as_bytes() {
        units.push(u16::from(*byte))?;
    }
    Ok(units)
}
