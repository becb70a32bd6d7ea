//! The order of properties by key and kind.
ghost use Rattle.std.specs.Prelude.{◌≡◌, length, map, IfOk, IsTrue, ◌↔◌, IsPermutation};
ghost use Rattle.carrier_model.specs.Values as plain;
ghost use Rattle.prop_names.specs.Meaning.{name_of};
ghost use Rattle.prop_values.specs.Arrivals.{AreInPlace, IsSortedByPair, IsLeastDouble, IsOrderOf};
ghost use Rattle.prop_values.specs.Ranks.{rank_in_set, IsRank, AreRanked, ranked_cmp};

use crate::arranging::inverse_of;
use crate::props::Prop;
use carrier_io::{Blob, NoMemory};
use prop_names::{Guid, Key, Name};
use std::alloc::Global;
use std::cmp::Ordering;

/// The ranks of names: those of sets below a certain one, numbers and texts in it, and those of sets above it.
const BELOW: u64 = 0x1_0000_0000;

const NUMBER: u64 = 0x2_0000_0000;

const TEXT: u64 = 0x3_0000_0000;

const ABOVE: u64 = 0x4_0000_0000;

/// A property, its rank, and how many came before it. Where ranks differ, the properties are in the order of their
/// ranks.
#[derive(Drop)]
struct Spot<'a, B: Blob> {
    prop: &'a Prop<B>,
    rank: u64,
    place: usize,
}

/// What the order of properties is: their places, the least property first, and where each place stands among these; or
/// the place of the first that has the key and kind of an earlier one.
#[derive(Drop)]
pub enum Order {
    Places {
        places: Vec<usize>,
        ranks: Vec<usize>,
    },
    Double(usize),
}

/// The rank of a name in the set that was chosen.
fn rank_in_set(name: &Name) -> u64
    ensures { result ≡ rank_in_set (name_of name.now) }
{
    match name {
        Name::Number { number, .. } => NUMBER + u64::from(*number),
        Name::Text(_) => TEXT,
    }
}

/// The rank of a property; `set` is any property set.
fn rank<B: Blob>(set: &Guid, prop: &Prop<B>) -> u64
    ensures { IsRank set.now.0 prop.now result }
{
    match &prop.key {
        Key::Id(id) => u64::from(*id) * 0x10000 + u64::from(prop.value.kind().number()),
        Key::Named(name) => match name.set().0.cmp(&set.0) {
            Ordering::Less => BELOW,
            Ordering::Equal => rank_in_set(name),
            Ordering::Greater => ABOVE,
        },
    }
}

/// The property set of the first name, so that the ranks of its names tell them apart; or zeros.
fn first_set<B: Blob>(list: &[Prop<B>]) -> Guid {
    for prop in list {
        if let Key::Named(name) = &prop.key {
            return name.set();
        }
    }
    Guid([0; 16])
}

/// The properties as they came.
fn spots_of<'a, B: Blob>(alloc: Global, list: &'a [Prop<B>]) -> Result<Vec<Spot<'a, B>>, NoMemory>
    ensures props { IfOk result (λ r. map (λ s. s.prop.now) r.items ≡ list.now) }
    ensures places { IfOk result (λ r. AreInPlace r.items (λ s. s.place)) }
    ensures ranked { IfOk result (λ r. AreRanked r.items (λ s. s.prop.now) (λ s. s.rank)) }
{
    let set = first_set(list);
    let mut spots = Vec::with_capacity(alloc, list.len())?;
    for place in 0..list.len() {
        let prop = &list[place];
        let rank = rank(&set, prop);
        spots.push(Spot { prop, rank, place })?;
    }
    Ok(spots)
}

/// By key and kind, and where these are the same by place.
fn sorted_by_pair<'a, B: Blob>(mut spots: Vec<Spot<'a, B>>) -> Vec<Spot<'a, B>>
    requires { AreRanked spots.items (λ s. s.prop.now) (λ s. s.rank) }
    ensures permutation { IsPermutation spots.entry.items result.items }
    ensures sorted { IsSortedByPair result.items (λ s. s.prop.now) (λ s. s.place) }
{
    spots.sort_unstable_by(
        |one: &Spot<'_, B>, other: &Spot<'_, B>| -> Ordering
            ensures { result ≡ ranked_cmp (λ s. s.prop.now) (λ s. s.rank) (λ s. s.place) one.now other.now }
        {
            match one.rank.cmp(&other.rank) {
                Ordering::Equal => one.prop.order(other.prop).then(one.place.cmp(&other.place)),
                unequal => unequal,
            }
        },
    );
    spots
}

/// Whether two have the same key and kind.
fn is_double<B: Blob>(one: &Spot<'_, B>, other: &Spot<'_, B>) -> bool
    ensures { IsTrue result ↔ ((one.now.rank ≡ other.now.rank) × (plain.prop_cmp one.now.prop.now other.now.prop.now ≡ Ordering.Equal)) }
{
    one.rank == other.rank && one.prop.order(other.prop).is_eq()
}

/// The least place of those whose left neighbour has the same key and kind.
fn first_double<B: Blob>(spots: &[Spot<'_, B>]) -> Option<usize>
    requires { AreRanked spots.now (λ s. s.prop.now) (λ s. s.rank) }
    ensures { IsLeastDouble spots.now (λ s. s.prop.now) (λ s. s.place) (length spots.now) result }
{
    let mut first = None;
    for k in 1..spots.len() {
        if is_double(&spots[k - 1], &spots[k]) {
            let place = spots[k].place;
            first = Some(place.min(first.unwrap_or(place)));
        }
    }
    first
}

/// Where each stood among those that came.
fn places_of<B: Blob>(alloc: Global, spots: &[Spot<'_, B>]) -> Result<Vec<usize>, NoMemory>
    ensures { IfOk result (λ r. r.items ≡ map (λ s. s.place) spots.now) }
{
    let mut places = Vec::with_capacity(alloc, spots.len())?;
    for spot in spots {
        places.push(spot.place)?;
    }
    Ok(places)
}

/// The order of properties by key and kind.
pub fn order_of<B: Blob>(alloc: Global, list: &[Prop<B>]) -> Result<Order, NoMemory>
    ensures { IfOk result (IsOrderOf list.now) }
{
    let spots = sorted_by_pair(spots_of(alloc, list)?);
    match first_double(&spots) {
        Some(place) => Ok(Order::Double(place)),
        None => {
            // The ranks are made while the spots stand: memory asked for behind a large block that was given back comes
            // from where it is not given back to the system.
            let places = places_of(alloc, &spots)?;
            let ranks = inverse_of(&places)?;
            Ok(Order::Places { places, ranks })
        }
    }
}
