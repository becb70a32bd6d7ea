//! Names that rise.
ghost use Rattle.std.specs.Bool.{OnTrue};
ghost use Rattle.std.specs.Prelude.{◌≡◌, map};
ghost use Rattle.carrier_model.specs.Files.{folded};
ghost use Rattle.cfb_directory.specs.Rising.{Rise, key_cmp, place_among};
ghost use Rattle.cfb_directory.specs.Spelled.{names_in};

use crate::names::lower;
use crate::spelled::Names;
use std::cmp::Ordering;

/// The order of two names with ASCII letters in lower case: by length, and then by the units. The order of siblings has
/// them in upper case.
fn names_order(one: &[u16], other: &[u16]) -> Ordering
    ensures { result ≡ key_cmp (folded one.now) (folded other.now) }
{
    if one.len() != other.len() {
        return one.len().cmp(&other.len());
    }
    for k in 0..one.len() {
        let order = lower(one[k]).cmp(&lower(other[k]));
        if order.is_ne() {
            return order;
        }
    }
    Ordering::Equal
}

/// The order of a name with ASCII letters in lower case and one that has them so.
fn key_order(name: &[u16], key: &[u16]) -> Ordering
    ensures { result ≡ key_cmp (folded name.now) key.now }
{
    if name.len() != key.len() {
        return name.len().cmp(&key.len());
    }
    for k in 0..name.len() {
        let order = lower(name[k]).cmp(&key[k]);
        if order.is_ne() {
            return order;
        }
    }
    Ordering::Equal
}

/// Whether each name comes before the next one.
pub fn rise(names: &Names) -> bool
    ensures { OnTrue result (Rise (map folded (names_in names.now))) }
{
    for k in 1..names.len() {
        if !names_order(names.get(k - 1), names.get(k)).is_lt() {
            return false;
        }
    }
    true
}

/// The place of a name, whose ASCII letters are in lower case, among names that rise.
pub fn place_of(names: &Names, key: &[u16]) -> Option<usize>
    requires { Rise (map folded (names_in names.now)) }
    ensures { result ≡ place_among (map folded (names_in names.now)) key.now }
{
    let mut low = 0;
    let mut high = names.len();
    while low < high {
        let middle = low + (high - low) / 2;
        match key_order(names.get(middle), key) {
            Ordering::Less => low = middle + 1,
            Ordering::Greater => high = middle,
            Ordering::Equal => return Some(middle),
        }
    }
    None
}
