//! The stream that makes a storage a message.
ghost use Rattle.std.specs.Prelude.{◌≡◌};
ghost use Rattle.carrier_model.specs.Lookups.{same_name};
ghost use Rattle.carrier_model.specs.Stores.{PROPERTIES as plain_properties};

use crate::order::sibling_order;
use std::cmp::Ordering;

/// The name of that stream: `__properties_version1.0`. [MS-OXMSG 2.4]
const PROPERTIES: [u16; 23] = [
    95, 95, 112, 114, 111, 112, 101, 114, 116, 105, 101, 115, 95, 118, 101, 114, 115, 105, 111,
    110, 49, 46, 48,
];

/// Whether a name, by its UTF-16 units, is that of a property stream, ASCII letters in either case. [MS-OXMSG 2.4]
pub fn is_property_stream(name: &[u16]) -> bool
    ensures { result ≡ same_name name.now plain_properties }
{
    matches!(sibling_order(name, &PROPERTIES), Ordering::Equal)
}
