//! A list whose storages are in order.
ghost use Rattle.std.specs.Prelude.{◌≡◌, ◌<◌, Some, length, slice_get, IfOk};
ghost use Rattle.cfb_list.specs.Contents.{file_seen, storages_of};
ghost use Rattle.cfb_list.specs.Listed as listed;
ghost use Rattle.cfb_list.specs.Sorting.{siblings_in_order};

use crate::content::{SortedStorage, Storage};
use crate::sorting::{file_in, sort_all};
use crate::views::FileView;
use carrier_io::{Blob, NoMemory};
use std::alloc::Global;
use std::marker::Model;

/// What is in each storage of a list, in its order. What was added stays where it is.
#[derive(Drop)]
pub struct SortedList<'t, B: Blob> {
    storages: Vec<SortedStorage<'t, B>>,
}

impl<'t, B: Blob> Model for SortedList<'t, B> {
    ghost use Rattle.std.specs.Prelude.{List};
    ghost use Rattle.cfb_list.specs.Listed.{Child, IsSound};
    ghost use Rattle.cfb_list.specs.Places.{AreThere, sorted_storages};

    ghost Value = { List (List Child) };

    ghost view = { λ s. sorted_storages B.bytes s.storages.items };

    ghost invariant = { λ s. IsSound (sorted_storages B.bytes s.storages.items) × AreThere B.bytes s.storages.items };
}

impl<'t, B: Blob> SortedList<'t, B> {
    ghost use Rattle.std.specs.Prelude.{map};
    ghost use Rattle.std.specs.List.{AllByRecursion};
    ghost use Rattle.cfb_list.specs.Trees.{inside};

    /// Storages put in order. NoMemory says that memory ran out, or that more is in one storage, or in one
    /// row, than a number of 32 bits tells.
    pub fn of_storages(
        alloc: Global,
        storages: Vec<Storage<'t, B>>,
    ) -> Result<SortedList<'t, B>, NoMemory>
        requires { listed.IsSound (storages_of B.bytes storages.items) }
        ensures { IfOk result (λ list. list ≡ map siblings_in_order (storages_of B.bytes storages.entry.items)) }
    {
        let storages = sort_all(alloc, storages)?;
        Ok(SortedList { storages })
    }

    /// How many streams and storages are in a storage.
    pub fn count_in(&self, parent: usize) -> usize
        requires { parent < length self.now }
        ensures count { result ≡ length (listed.children_at self.now parent) }
        ensures sound { AllByRecursion (listed.IsChild parent (length self.now)) (listed.children_at self.now parent) }
        ensures tree { inside self.now parent ≡ listed.built (inside self.now) (listed.children_at self.now parent) }
    {
        self.storages[parent].places.len()
    }

    /// The one at a place in the order of a storage.
    pub fn file(&self, parent: usize, place: usize) -> FileView<'_, B>
        requires parent { parent < length self.now }
        requires place { place < length (listed.children_at self.now parent) }
        ensures seen { slice_get (listed.children_at self.now parent) place ≡ Some (file_seen B.bytes result) }
        ensures sound { listed.IsChild parent (length self.now) (file_seen B.bytes result) }
    {
        file_in(&self.storages[parent], place)
    }
}
