//! The order of siblings.
ghost use Rattle.std.specs.Prelude.{◌≡◌};
ghost use Rattle.std.specs.Char.{to_ascii_uppercase};
ghost use Rattle.carrier_model.specs.FileTrees.{sibling_cmp};

use std::cmp::Ordering;

/// A unit, in upper case where it is an ASCII letter.
fn upper(unit: u16) -> u16
    ensures { result ≡ to_ascii_uppercase unit }
{
    if unit >= 97 && unit <= 122 {
        unit - 32
    } else {
        unit
    }
}

/// The order of siblings by the UTF-16 units of their names: by length, and then by the units with ASCII letters in upper
/// case. [MS-CFB 2.6.4]
pub fn sibling_order(one: &[u16], other: &[u16]) -> Ordering
    ensures { result ≡ sibling_cmp one.now other.now }
{
    if one.len() != other.len() {
        return one.len().cmp(&other.len());
    }
    for k in 0..one.len() {
        let order = upper(one[k]).cmp(&upper(other[k]));
        if order.is_ne() {
            return order;
        }
    }
    Ordering::Equal
}
