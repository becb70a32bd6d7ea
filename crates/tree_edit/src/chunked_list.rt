//! Lists in chunks of 1,024 elements. An element is taken out in a step for each chunk before it, and at most 1,024 moves.
ghost use Rattle.std.specs.Prelude.{◌≡◌, ◌≤◌, ◌<◌, ◌+◌, [], ◌∷◌, ◌++◌, length, take, slice_get, slice_set, Some, Ok, Err, OnOk, IfOk, IfErr, IfSome, IfNone};
ghost use Rattle.std.specs.List.{flat_map, remove as remove_at};
ghost use Rattle.edit_model.specs.Edits.{dropped_at, no_place};
ghost use Rattle.tree_edit.specs.ChunkedLists.{listed};
ghost use Rattle.tree_edit.specs.declared.ends.EditWhy.TheVariants as whys;
ghost use Rattle.tree_edit.specs.declared.ends.OnceEnd.TheVariants as ends;

use crate::ends::{EditWhy, OnceEnd};
use carrier_io::NoMemory;
use std::alloc::Global;
use std::mem::replace;

/// So many elements fill a chunk.
const CHUNK: usize = 1024;

/// A list in chunks, one behind the other. The last one isn't full.
#[derive(Drop)]
pub struct ChunkedList<T> {
    /// The full ones.
    pub full: Vec<Vec<T>>,
    /// The last one.
    pub last: Vec<T>,
}

impl<T: Drop> ChunkedList<T> {
    /// No element.
    pub fn new(alloc: Global) -> ChunkedList<T>
        ensures { listed result ≡ [] }
    {
        ChunkedList {
            full: Vec::new(alloc),
            last: Vec::new(alloc),
        }
    }

    /// Puts an element behind the others.
    pub fn push(&mut self, alloc: Global, item: T) -> Result<(), NoMemory>
        ensures { OnOk result (listed self.new ≡ listed self.old ++ item ∷ []) }
    {
        self.last.push(item)?;
        if self.last.len() >= CHUNK {
            self.full.push(replace(&mut self.last, Vec::new(alloc)))?;
        }
        Ok(())
    }

    /// The chunk in which the element of a number is, and its number there. Behind the full chunks it is in the last one.
    fn place(&self, number: u64) -> (usize, u64)
        ensures sum { length (flat_map (λ chunk. chunk.items) (take result.0 self.now.full.items)) + result.1 ≡ number }
        ensures chunk { IfSome (slice_get self.now.full.items result.0) (λ chunk. result.1 < length chunk.items) }
        ensures bound { result.0 ≤ length self.now.full.items }
    {
        let mut left = number;
        let mut at = 0;
        for chunk in &self.full {
            let count = chunk.len() as u64;
            if left < count {
                return (at, left);
            }
            left -= count;
            at += 1;
        }
        (at, left)
    }

    /// Takes the element of a number out, where it is there. Those behind it move up.
    pub fn remove(&mut self, number: u64) -> Option<T>
        ensures taken { IfSome result (λ x. slice_get (listed self.old) number ≡ Some x) }
        ensures left { IfSome result (λ x. listed self.new ≡ remove_at (listed self.old) number) }
        ensures past { IfNone result ((length (listed self.old) ≤ number) × (listed self.new ≡ listed self.old)) }
    {
        let (at, left) = self.place(number);
        if at < self.full.len() {
            return Some(self.full[at].remove(left as usize));
        }
        if left < self.last.len() as u64 {
            return Some(self.last.remove(left as usize));
        }
        None
    }

    /// Puts an element in the place of that of a number, and hands that one out, where it is there.
    pub fn replace(&mut self, number: u64, item: T) -> Option<T>
        ensures taken { IfSome result (λ x. slice_get (listed self.old) number ≡ Some x) }
        ensures put { IfSome result (λ x. listed self.new ≡ slice_set (listed self.old) number item) }
        ensures past { IfNone result (length (listed self.old) ≤ number) }
    {
        let (at, left) = self.place(number);
        if at < self.full.len() {
            let chunk = &mut self.full[at];
            return Some(replace(&mut chunk[left as usize], item));
        }
        if left < self.last.len() as u64 {
            return Some(replace(&mut self.last[left as usize], item));
        }
        None
    }

    /// All elements.
    pub fn into_list(self, alloc: Global) -> Result<Vec<T>, NoMemory>
        ensures { IfOk result (λ all. all.items ≡ listed self) }
    {
        let mut all = Vec::new(alloc);
        for mut chunk in self.full {
            all.append(&mut chunk)?;
        }
        let mut last = self.last;
        all.append(&mut last)?;
        Ok(all)
    }
}

/// Takes an element of the list out, where it is there, and leaves a blank one in its place.
pub fn take_row<T: Drop>(rows: &mut ChunkedList<T>, number: u64, blank: T) -> Result<T, OnceEnd>
    ensures taken { IfOk result (λ x. slice_get (listed rows.old) number ≡ Some x) }
    ensures left { IfOk result (λ x. listed rows.new ≡ slice_set (listed rows.old) number blank) }
    ensures past { IfErr result (λ e. (e ≡ ends.Cannot whys.NoPlace) × (length (listed rows.old) ≤ number)) }
{
    match rows.replace(number, blank) {
        Some(row) => Ok(row),
        None => Err(OnceEnd::Cannot(EditWhy::NoPlace)),
    }
}

/// Puts an element into the list, in the place of the one of a number.
pub fn put_row<T: Drop>(rows: &mut ChunkedList<T>, number: u64, row: T)
    requires { number < length (listed rows.old) }
    ensures { listed rows.new ≡ slice_set (listed rows.old) number row }
{
    drop(rows.replace(number, row));
}

/// Takes an element of the list out. Those behind it move up.
pub fn remove_row<T: Drop>(rows: &mut ChunkedList<T>, number: u64) -> Result<(), OnceEnd>
    ensures ok { OnOk result (dropped_at number (listed rows.old) ≡ Ok (listed rows.new)) }
    ensures err { IfErr result (λ e. (e ≡ ends.Cannot whys.NoPlace) × (dropped_at number (listed rows.old) ≡ Err no_place)) }
{
    match rows.remove(number) {
        Some(row) => {
            drop(row);
            Ok(())
        }
        None => Err(OnceEnd::Cannot(EditWhy::NoPlace)),
    }
}
