//! Entries by their names.
ghost use Rattle.std.specs.Prelude.{◌≡◌, ◌<◌, ◌≤◌, false, not, length, map, IsTrue};
ghost use Rattle.std.specs.List.Sorted.{IsSorted};
ghost use Rattle.std.specs.Ordering.{is_lt};
ghost use Rattle.prop_names.specs.Meaning.{name_of};
ghost use Rattle.msg_nameid.specs.Maps.{IsLeastId, pair_of};
ghost use Rattle.msg_nameid.specs.Orders.{IsFrontOf, lower_id, pair_at, pair_cmp};

use crate::map::Entry;
use prop_names::Name;
use std::cmp::Ordering;

/// Whether an entry comes before another by its name, or by its id where they have one name.
fn is_below(one: &Entry, other: &Entry) -> bool
    ensures { result ≡ is_lt (pair_cmp (pair_of one.now) (pair_of other.now)) }
{
    one.name
        .order(&other.name)
        .then(one.id.cmp(&other.id))
        .is_lt()
}

/// The entry that is k-th.
fn nth(entries: &[Entry], k: usize) -> &Entry
    requires { k < length entries.now }
    ensures { pair_of result.now ≡ pair_at (map pair_of entries.now) k }
{
    &entries[k]
}

/// Whether entries stand in the order of their names, and those of one name in that of their ids.
pub fn are_in_order(entries: &[Entry]) -> bool
    ensures yes { IsTrue result → IsSorted pair_cmp (map pair_of entries.now) }
    ensures no { result ≡ false → IsSorted pair_cmp (map pair_of entries.now) → ⊥ }
{
    entries.is_sorted_by(
        |one: &Entry, other: &Entry| -> bool
            ensures { result ≡ not (is_lt (pair_cmp (pair_of other.now) (pair_of one.now))) }
        { !is_below(other, one) },
    )
}

/// Where to look among the places from one up to another: at a guess that is one of them, else in their middle.
fn probe(low: usize, high: usize, guess: usize) -> usize
    requires { low < high }
    ensures within { (low ≤ result) × (result < high) }
    ensures guessed { low ≤ guess → guess < high → result ≡ guess }
{
    if low <= guess && guess < high {
        guess
    } else {
        low + (high - low) / 2
    }
}

/// How many entries have names below a name. It looks at a guess first, and then farther and farther from it.
fn count_below(entries: &[Entry], name: &Name, guess: usize) -> usize
    requires { IsSorted pair_cmp (map pair_of entries.now) }
    ensures { IsFrontOf (map pair_of entries.now) (name_of name.now) result }
{
    let mut low = 0;
    let mut high = entries.len();
    let mut guess = guess;
    let mut step = 1usize;
    while low < high {
        let place = probe(low, high, guess);
        let distance = step;
        step = distance.saturating_mul(2);
        if nth(entries, place).name.order(name).is_lt() {
            low = place + 1;
            guess = place.saturating_add(distance);
        } else {
            high = place;
            guess = place.saturating_sub(distance);
        }
    }
    low
}

/// The least id of a name, if it has one, among entries that are in order. It is looked for near a guess of its place.
pub fn least_id_near(entries: &[Entry], name: &Name, guess: usize) -> Option<u16>
    requires { IsSorted pair_cmp (map pair_of entries.now) }
    ensures { IsLeastId (map pair_of entries.now) (name_of name.now) result }
{
    let at = count_below(entries, name, guess);
    if at >= entries.len() {
        return None;
    }
    let entry = nth(entries, at);
    match entry.name.order(name) {
        Ordering::Equal => Some(entry.id),
        _ => None,
    }
}

/// The lower of an id and one that was found before.
fn lower(found: Option<u16>, id: u16) -> u16
    ensures { result ≡ lower_id found id }
{
    match found {
        Some(other) => other.min(id),
        None => id,
    }
}

/// The least id of a name, if it has one, among entries in any order, which are all looked at.
pub fn least_id(entries: &[Entry], name: &Name) -> Option<u16>
    ensures { IsLeastId (map pair_of entries.now) (name_of name.now) result }
{
    let mut least = None;
    for k in 0..entries.len() {
        let entry = nth(entries, k);
        if entry.name.order(name).is_eq() {
            least = Some(lower(least, entry.id));
        }
    }
    least
}
