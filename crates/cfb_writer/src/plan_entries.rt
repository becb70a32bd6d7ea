//! The entries of a sorted list.
ghost use Rattle.std.specs.Prelude.{◌≡◌, ◌≤◌, ◌+◌, length, IfOk};
ghost use Rattle.carrier_model.specs.FileTrees.{entries_in};
ghost use Rattle.cfb_list.specs.Listed.{tree_of};
ghost use Rattle.cfb_writer.specs.Placed.{AreCounted};
ghost use Rattle.cfb_writer.specs.Planned.{laid_of};
ghost use Rattle.cfb_list.specs.Trees.{inside};

use crate::entries::Entries;
use crate::placing::{append_level, level_of};
use crate::totals::Totals;
use carrier_io::{Blob, NoMemory};
use cfb_list::SortedList;
use std::alloc::Global;

/// The entries of storages in order, and the class of the root.
pub fn entries_of<'t, B: Blob>(
    alloc: Global,
    root_class: [u8; 16],
    list: SortedList<'t, B>,
    totals: &[Totals],
) -> Result<Entries<'t, B>, NoMemory>
    requires many { length totals.now ≡ length list }
    requires counted { AreCounted (inside list) 0 totals.now }
    requires few { 1 + entries_in (tree_of list) ≤ 2147483648 }
    ensures { IfOk result (λ entries. entries ≡ laid_of root_class (tree_of list.entry)) }
{
    let level = level_of(alloc, &list, totals, 0, 1)?;
    let top = level.top;
    let mut places = Vec::with_capacity(alloc, totals[0].entries as usize)?;
    append_level(alloc, &list, totals, &mut places, level)?;
    Ok(Entries::new(root_class, list, top, places))
}
