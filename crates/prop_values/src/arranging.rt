//! A list that is put into another order in place.
ghost use Rattle.std.specs.Prelude.{◌≡◌, length, map, slice_index_or, IfOk};
ghost use Rattle.prop_values.specs.Arranged.{ArePlaces, AreInverse};

use carrier_io::NoMemory;

/// Where each of the places stands among them.
pub fn inverse_of(places: &Vec<usize>) -> Result<Vec<usize>, NoMemory>
    requires { ArePlaces places.now.items }
    ensures { IfOk result (λ r. AreInverse places.now.items r.items) }
{
    let mut ranks = Vec::from_elem(*places.allocator(), 0usize, places.len())?;
    for k in 0..places.len() {
        ranks[places[k]] = k;
    }
    Ok(ranks)
}

/// Puts the elements into the order in which the places name them. `ranks` says which element goes where: the one at k
/// goes to the place ranks[k].
pub fn arrange<T>(list: &mut [T], mut places: Vec<usize>, mut ranks: Vec<usize>)
    requires inverse { AreInverse places.items ranks.items }
    requires each { length places.items ≡ length list.old }
    ensures { (d : T) → list.new ≡ map (λ k. slice_index_or list.old k d) places.items }
{
    for k in 0..list.len() {
        let from = places[k];
        list.swap(k, from);
        // The element that stood at k stands there now.
        let rank = ranks[k];
        places[rank] = from;
        ranks[from] = rank;
    }
}
