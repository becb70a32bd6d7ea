//! Siblings in their order.
ghost use Rattle.std.specs.Prelude.{◌≡◌, ◌<◌, ◌++◌, Some, All, flat_map, length, map, slice_get, IfOk, OnOk};
ghost use Rattle.carrier_model.specs.FileTrees.{sibling_cmp};
ghost use Rattle.cfb_list.specs.Contents.{children_of, file_children, file_seen, name_seen, storages_of};
ghost use Rattle.cfb_list.specs.Listed.{name_of};
ghost use Rattle.cfb_list.specs.Places.{AreThere, IsThere, child_at, places_of, sorted_children, sorted_storages};
ghost use Rattle.cfb_list.specs.Sorting.{siblings_in_order};

use crate::content::{File, Place, SortedStorage, Storage};
use crate::views::{FileView, NameView, name_order};
use carrier_io::{Blob, NoMemory};
use std::alloc::Global;
use std::cmp::Ordering;

/// The one at a place in the order of a storage.
pub fn file_in<'f, 't, B: Blob>(storage: &'f SortedStorage<'t, B>, k: usize) -> FileView<'f, B>
    requires there { All (IsThere B.bytes storage.now.files.items) storage.now.places.items }
    requires place { k < length (sorted_children B.bytes storage.now) }
    ensures { slice_get (sorted_children B.bytes storage.now) k ≡ Some (file_seen B.bytes result) }
{
    let place = storage.places[k];
    storage.files[place.file as usize].view_at(place.number)
}

/// The name of what is found at a place; no units where nothing is.
fn name_at<'f, 't, B: Blob>(files: &'f [File<'t, B>], place: Place) -> NameView<'f>
    ensures { name_seen result ≡ name_of (child_at B.bytes files.now place) }
{
    match files.get(place.file as usize) {
        Some(file) => file.name_at(place.number),
        None => NameView::Whole(&[]),
    }
}

/// The order of what is found at two places.
fn place_order<B: Blob>(files: &[File<'_, B>], one: Place, other: Place) -> Ordering
    ensures { result ≡ sibling_cmp (name_of (child_at B.bytes files.now one)) (name_of (child_at B.bytes files.now other)) }
{
    if one.file == other.file {
        if let Some(file) = files.get(one.file as usize) {
            return file.order_of(one.number, other.number);
        }
    }
    name_order(name_at(files, one), name_at(files, other))
}

/// Appends the places of what a file stands for. NoMemory says that memory ran out, or that there are more than a number
/// of 32 bits tells.
fn push_places(places: &mut Vec<Place>, file: u32, count: usize) -> Result<(), NoMemory>
    ensures { OnOk result (places.new.items ≡ places.old.items ++ places_of file 0 count) }
{
    for number in 0..count {
        let Ok(number) = u32::try_from(number) else {
            return Err(NoMemory);
        };
        places.push(Place { file, number })?;
    }
    Ok(())
}

/// How many files and storages the files of a list stand for, or the greatest number.
fn count_places<B: Blob>(files: &[File<'_, B>]) -> usize {
    let mut count = 0usize;
    for file in files {
        count = count.saturating_add(file.count());
    }
    count
}

/// The places of what files stand for, in the order of adding. NoMemory says that memory ran out, or that there is more
/// than a number of 32 bits tells.
fn places_in<B: Blob>(alloc: Global, files: &[File<'_, B>]) -> Result<Vec<Place>, NoMemory>
    ensures there { IfOk result (λ places. All (IsThere B.bytes files.now) places.items) }
    ensures all { IfOk result (λ places. map (child_at B.bytes files.now) places.items ≡ flat_map (file_children B.bytes) files.now) }
{
    let mut places = Vec::with_capacity(alloc, count_places(files))?;
    for k in 0..files.len() {
        let Ok(file) = u32::try_from(k) else {
            return Err(NoMemory);
        };
        push_places(&mut places, file, files[k].count())?;
    }
    Ok(places)
}

/// Puts the places of what files stand for in the order of its names.
fn sort_places<B: Blob>(files: &[File<'_, B>], places: &mut Vec<Place>) -> Result<(), NoMemory>
    ensures there { All (IsThere B.bytes files.now) places.old.items → All (IsThere B.bytes files.now) places.new.items }
    ensures order { OnOk result (map (child_at B.bytes files.now) places.new.items ≡ siblings_in_order (map (child_at B.bytes files.now) places.old.items)) }
{
    places.sort_by(
        |one: &Place, other: &Place| -> Ordering
            ensures { result ≡ sibling_cmp (name_of (child_at B.bytes files.entry.now one.now)) (name_of (child_at B.bytes files.entry.now other.now)) }
        { place_order(files, *one, *other) },
    )?;
    Ok(())
}

/// Sorts what is in a storage.
fn sort_storage<'t, B: Blob>(
    alloc: Global,
    storage: Storage<'t, B>,
) -> Result<SortedStorage<'t, B>, NoMemory>
    ensures there { IfOk result (λ sorted. All (IsThere B.bytes sorted.files.items) sorted.places.items) }
    ensures order { IfOk result (λ sorted. sorted_children B.bytes sorted ≡ siblings_in_order (children_of B.bytes storage.entry)) }
{
    let files = storage.files;
    let mut places = places_in(alloc, &files)?;
    sort_places(&files, &mut places)?;
    Ok(SortedStorage { files, places })
}

/// Sorts what is in each storage.
pub fn sort_all<'t, B: Blob>(
    alloc: Global,
    storages: Vec<Storage<'t, B>>,
) -> Result<Vec<SortedStorage<'t, B>>, NoMemory>
    ensures there { IfOk result (λ all. AreThere B.bytes all.items) }
    ensures order { IfOk result (λ all. sorted_storages B.bytes all.items ≡ map siblings_in_order (storages_of B.bytes storages.entry.items)) }
{
    let mut all = Vec::with_capacity(alloc, storages.len())?;
    for storage in storages {
        all.push(sort_storage(alloc, storage)?)?;
    }
    Ok(all)
}
