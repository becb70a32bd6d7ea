//! The property sets that have a label.
ghost use Rattle.std.specs.Prelude.{◌≡◌};
ghost use Rattle.std.specs.Option.{option_map};
ghost use Rattle.carrier_model.specs.KeyTexts.{label_of, label_among, labels};

use crate::names::Guid;
use carrier_io::u32_at;

/// What follows the first field of every GUID that has a label.
const FAMILY: [u8; 12] = [
    0x00, 0x00, 0x00, 0x00, 0xc0, 0x00, 0x00, 0x00, 0x00, 0x00, 0x00, 0x46,
];

/// The label of a property set, where it has one (MS-OXPROPS, section 1.3.2).
pub fn set_label(set: &Guid) -> Option<&'static str>
    ensures { option_map (λ label. label.now) result ≡ label_of set.now.0 }
{
    if &set.0[4..] == &FAMILY[..] {
        label_of_field(u32_at(&set.0, 0))
    } else {
        None
    }
}

/// The label of the property set with this first field.
fn label_of_field(field: u32) -> Option<&'static str>
    ensures { option_map (λ label. label.now) result ≡ label_among labels field }
{
    match field {
        0x0002_0328 => Some("PS_MAPI"),
        0x0002_0329 => Some("PS_PUBLIC_STRINGS"),
        0x0002_0386 => Some("PS_INTERNET_HEADERS"),
        0x0006_2002 => Some("PSETID_Appointment"),
        0x0006_2003 => Some("PSETID_Task"),
        0x0006_2004 => Some("PSETID_Address"),
        0x0006_2008 => Some("PSETID_Common"),
        _ => None,
    }
}
