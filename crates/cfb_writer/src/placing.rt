//! Entries in the order of their numbers: a storage stands before what is in it.
ghost use Rattle.std.specs.Prelude.{◌≡◌, ◌<◌, ◌≤◌, ◌+◌, ◌*◌, ◌++◌, ◌∷◌, [], ℕ, List, length, vec_len, All, IfOk, OnOk, option_to_list};
ghost use Rattle.std.specs.List.{AllByRecursion};
ghost use Rattle.carrier_model.specs.FileTrees.{FileTree, entries_in};
ghost use Rattle.carrier_model.specs.Layout as layout;
ghost use Rattle.carrier_model.specs.Totals.{capped};
ghost use Rattle.cfb_list.specs.Contents.{child_seen};
ghost use Rattle.cfb_writer.specs.Levels as levels;
ghost use Rattle.cfb_list.specs.Listed as listed;
ghost use Rattle.cfb_writer.specs.Placed as placed;
ghost use Rattle.cfb_list.specs.Trees.{inside};

use crate::totals::Totals;
use carrier_io::{Blob, NoMemory};
use cfb_layout::{NO_STREAM, append_links, top_of};
use cfb_list::{KindView, SortedList};
use std::alloc::Global;

/// An entry: where its file stands in the list, and its links.
#[derive(Clone, Copy, Debug, PartialEq, Eq)]
pub struct Place {
    pub storage: u32,
    pub file: u32,
    pub left: u32,
    pub right: u32,
    pub child: u32,
}

/// The entries of a file, with what is in it.
fn entries_of<B: Blob>(kind: &KindView<'_, B>, totals: &[Totals]) -> u64
    requires { (parent : ℕ) × listed.IsChild parent (length totals.now) (child_seen B.bytes [] kind.now) }
    ensures { (parent : ℕ) (name : List ℕ) (tree : ℕ → FileTree) → listed.IsChild parent (length totals.now) (child_seen B.bytes [] kind.now) → placed.AreCounted tree (parent + 1) totals.now → result ≡ capped (entries_in (listed.built tree (child_seen B.bytes name kind.now ∷ []))) }
{
    match kind {
        KindView::Stream(_) => 1,
        KindView::Storage { number, .. } => totals[*number].entries.saturating_add(1),
    }
}

/// The numbers of what is in a storage, where the first has this one.
fn sibling_numbers<B: Blob>(
    alloc: Global,
    list: &SortedList<'_, B>,
    totals: &[Totals],
    parent: usize,
    first: u32,
) -> Result<Vec<u32>, NoMemory>
    requires parent { parent < length list.now }
    requires many { length totals.now ≡ length list.now }
    requires counted { placed.AreCounted (inside list.now) 0 totals.now }
    requires few { first + entries_in (inside list.now parent) ≤ 2147483648 }
    ensures { IfOk result (λ v. v.items ≡ layout.sibling_numbers first (inside list.now parent)) }
{
    let count = list.count_in(parent);
    let mut numbers = Vec::with_capacity(alloc, count)?;
    let mut number = first;
    for place in 0..count {
        numbers.push(number)?;
        number += entries_of(&list.file(parent, place).kind, totals) as u32;
    }
    Ok(numbers)
}

/// The files of a storage whose entries are still to be placed, from one of them on: the number at the top of all its
/// files, and the links of each.
#[derive(Drop)]
pub struct Level {
    pub storage: usize,
    pub file: usize,
    pub top: u32,
    pub links: Vec<(u32, u32)>,
}

/// All files of a storage, where the first has this number.
pub fn level_of<B: Blob>(
    alloc: Global,
    list: &SortedList<'_, B>,
    totals: &[Totals],
    storage: usize,
    first: u32,
) -> Result<Level, NoMemory>
    requires storage { storage < length list.now }
    requires many { length totals.now ≡ length list.now }
    requires counted { placed.AreCounted (inside list.now) 0 totals.now }
    requires few { first + entries_in (inside list.now storage) ≤ 2147483648 }
    ensures { IfOk result (levels.IsWhole list.now storage first) }
{
    let numbers = sibling_numbers(alloc, list, totals, storage, first)?;
    let mut links = Vec::with_capacity(alloc, list.count_in(storage))?;
    append_links(&mut links, &numbers)?;
    Ok(Level {
        storage,
        file: 0,
        top: top_of(&numbers),
        links,
    })
}

/// Appends the entry of a file. What is in it, if it is a storage, is then to be placed. NoMemory says that memory ran out,
/// or that a number has more than 32 bits.
fn append_file<B: Blob>(
    alloc: Global,
    list: &SortedList<'_, B>,
    totals: &[Totals],
    places: &mut Vec<Place>,
    storage: usize,
    file: usize,
    links: (u32, u32),
) -> Result<Option<Level>, NoMemory>
    requires storage { storage < length list.now }
    requires file { file < length (listed.children_at list.now storage) }
    requires many { length totals.now ≡ length list.now }
    requires counted { placed.AreCounted (inside list.now) 0 totals.now }
    requires valid { All (placed.IsPlace list.now) places.old.items }
    requires few { vec_len places.old + 1 + entries_in (listed.built (inside list.now) (placed.child_at list.now storage file ∷ [])) ≤ 2147483648 }
    ensures valid { OnOk result (All (placed.IsPlace list.now) places.new.items) }
    ensures level { IfOk result (λ inner. AllByRecursion (levels.IsLevel list.now) (option_to_list inner)) }
    ensures count { OnOk result (vec_len places.new ≡ vec_len places.old + 1) }
    ensures room { IfOk result (λ inner. 1 + levels.entries_left list.now (option_to_list inner) ≡ entries_in (listed.built (inside list.now) (placed.child_at list.now storage file ∷ []))) }
    ensures slots { IfOk result (λ inner. placed.slots_at list.now places.new.items ++ levels.slots_left list.now (vec_len places.old + 2) (option_to_list inner) ≡ placed.slots_at list.now places.old.items ++ layout.slots_from (vec_len places.old + 1) (links ∷ []) (listed.built (inside list.now) (placed.child_at list.now storage file ∷ []))) }
{
    let (left, right) = links;
    let (Ok(at), Ok(number)) = (u32::try_from(storage), u32::try_from(file)) else {
        return Err(NoMemory);
    };
    let mut place = Place {
        storage: at,
        file: number,
        left,
        right,
        child: NO_STREAM,
    };
    match list.file(storage, file).kind {
        KindView::Stream(_) => {
            places.push(place)?;
            Ok(None)
        }
        KindView::Storage { number, .. } => {
            let first = places.len() as u32 + 2;
            let inner = level_of(alloc, list, totals, number, first)?;
            place.child = inner.top;
            places.push(place)?;
            Ok(Some(inner))
        }
    }
}

/// Appends the entry of the next file of a level, if it has one, and puts back what is left.
fn append_next<B: Blob>(
    alloc: Global,
    list: &SortedList<'_, B>,
    totals: &[Totals],
    places: &mut Vec<Place>,
    stack: &mut Vec<Level>,
    level: Level,
) -> Result<(), NoMemory>
    requires many { length totals.now ≡ length list.now }
    requires counted { placed.AreCounted (inside list.now) 0 totals.now }
    requires valid { All (placed.IsPlace list.now) places.old.items }
    requires level { AllByRecursion (levels.IsLevel list.now) (stack.old.items ++ level ∷ []) }
    requires few { vec_len places.old + 1 + levels.entries_left list.now (stack.old.items ++ level ∷ []) ≤ 2147483648 }
    ensures proceeds { OnOk result (levels.Proceeds list.now places.old.items places.new.items (stack.old.items ++ level ∷ []) stack.new.items) }
    ensures fewer { OnOk result (2 * levels.entries_left list.now stack.new.items + length stack.new.items ≤ 2 * levels.entries_left list.now (stack.old.items ++ level ∷ []) + length stack.old.items) }
{
    let Level {
        storage,
        file,
        top,
        links,
    } = level;
    if file >= list.count_in(storage) {
        return Ok(());
    }
    let inner = append_file(alloc, list, totals, places, storage, file, links[file])?;
    stack.push(Level {
        storage,
        file: file + 1,
        top,
        links,
    })?;
    match inner {
        Some(inner) => {
            stack.push(inner)?;
            Ok(())
        }
        None => Ok(()),
    }
}

/// Appends the entries of a level, each followed by those of what is in it.
pub fn append_level<B: Blob>(
    alloc: Global,
    list: &SortedList<'_, B>,
    totals: &[Totals],
    places: &mut Vec<Place>,
    level: Level,
) -> Result<(), NoMemory>
    requires many { length totals.now ≡ length list.now }
    requires counted { placed.AreCounted (inside list.now) 0 totals.now }
    requires valid { All (placed.IsPlace list.now) places.old.items }
    requires level { levels.IsLevel list.now level }
    requires few { vec_len places.old + 1 + levels.entries_left list.now (level ∷ []) ≤ 2147483648 }
    ensures valid { OnOk result (All (placed.IsPlace list.now) places.new.items) }
    ensures slots { OnOk result (placed.slots_at list.now places.new.items ≡ placed.slots_at list.now places.old.items ++ levels.slots_left list.now (vec_len places.old + 1) (level ∷ [])) }
{
    let mut stack = Vec::new(alloc);
    stack.push(level)?;
    while let Some(level) = stack.pop() {
        append_next(alloc, list, totals, places, &mut stack, level)?;
    }
    Ok(())
}
