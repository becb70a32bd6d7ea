//! The walk over a directory, by a list of pending links.
ghost use Rattle.std.specs.Prelude.{◌≡◌, ℕ, ◌+◌, ◌<◌, ◌≤◌, ◌++◌, ◌∷◌, List, [], length, IfOk, OnOk, All};
ghost use Rattle.carrier_model.specs.Links.{visited};
ghost use Rattle.carrier_model.specs.Marks.{Marks, unmarked};
ghost use Rattle.carrier_io.specs.Reads.{Gives};
ghost use Rattle.cfb_sectors.specs.Took.{Tells};
ghost use Rattle.cfb_sectors.specs.Views.{entry as entry_seen};
ghost use Rattle.cfb_directory.specs.declared.links.Pending.TheVariants.{Visit, Place};
ghost use Rattle.cfb_directory.specs.Walks.{directory_of, link_of, walked, walk_of, IsInside, rust_left, rust_right, rust_below};

use crate::links::{Link, Member, Pending, Walked};
use carrier_io::{Fault, NoMemory, Reason, Stop};
use cfb_sectors::fields::{CHILD, LEFT, NAME_LENGTH, OBJECT_TYPE, RIGHT, STORAGE, STREAM};
use cfb_sectors::{Entry, SectorMarks, Sectors};
use std::alloc::Global;

/// A link that names nothing [MS-CFB 2.6.1].
const NO_LINK: u32 = 0xFFFF_FFFF;

/// How deep a storage may be; the root has depth 0.
const DEEPEST: u32 = 100;

/// The fault of this reason at an offset.
fn fault(reason: Reason, offset: u64) -> Fault
    ensures { result ≡ record { reason = reason; offset = offset } }
{
    Fault { reason, offset }
}

/// The entry that a link names, which is marked. EntryOutOfRange or EntryShared at the link, BadEntryType or
/// StorageTooDeep at the entry's type, BadName at its name's length. [MS-CFB 2.6.1, 2.6.4]
#[tactic(auto, unfolding(carrier_model::specs::Links::visited))]
fn visit_entry(sectors: &Sectors<'_>, link: Link, marks: &mut SectorMarks) -> Result<Entry, Fault>
    requires marks { length marks.old ≡ (directory_of sectors.now).count }
    ensures answer { (seen : List ℕ) → Marks marks.old seen → Tells entry_seen result (visited (directory_of sectors.now) (link_of link) seen) }
    ensures marked { (seen : List ℕ) → Marks marks.old seen → IfOk result (λ e. Marks marks.new (seen ++ link.target ∷ [])) }
    ensures there { IfOk result (λ e. entry_seen e ≡ (directory_of sectors.now).entry link.target) }
    ensures inside { OnOk result (link.target < (directory_of sectors.now).count) }
    ensures length { length marks.new ≡ length marks.old }
    ensures shallow { IfOk result (λ e. e.kind ≡ 1 → link.depth ≤ 100) }
    ensures fewer { OnOk result (unmarked marks.new + 1 ≡ unmarked marks.old) }
{
    if link.target >= sectors.entries() {
        return Err(fault(Reason::EntryOutOfRange, link.place));
    }
    let place = sectors.entry_offset(link.target);
    let entry = sectors.entry(link.target);
    if marks.has(link.target) {
        return Err(fault(Reason::EntryShared, link.place));
    }
    if entry.kind != STORAGE && entry.kind != STREAM {
        return Err(fault(Reason::BadEntryType, place + OBJECT_TYPE as u64));
    }
    if entry.name_bytes % 2 != 0 || entry.name_bytes < 2 || entry.name_bytes > 64 {
        return Err(fault(Reason::BadName, place + NAME_LENGTH as u64));
    }
    if entry.kind == STORAGE && link.depth > DEEPEST {
        return Err(fault(Reason::StorageTooDeep, place + OBJECT_TYPE as u64));
    }
    marks.mark(link.target);
    Ok(entry)
}

/// Puts off what is to be done after an entry: its left link, its place, its right link, what is below it.
fn put_off(pending: &mut Vec<Pending>, link: Link, entry: Entry, place: u64) -> Result<(), NoMemory>
    requires shallow { entry.kind ≡ 1 → link.depth ≤ 100 }
    requires small { place ≤ 268435456 }
    ensures { OnOk result (pending.new.items ≡ pending.old.items ++ Visit (rust_below link (entry_seen entry) place) ∷ Visit (rust_right link (entry_seen entry) place) ∷ Place (record { parent = link.parent; id = link.target }) ∷ Visit (rust_left link (entry_seen entry) place) ∷ []) }
{
    let (target, depth) = if entry.kind == STORAGE {
        (entry.child, link.depth + 1)
    } else {
        (NO_LINK, 0)
    };
    pending.push(Pending::Visit(Link {
        target,
        place: place + CHILD as u64,
        depth,
        parent: link.target,
    }))?;
    pending.push(Pending::Visit(Link {
        target: entry.right,
        place: place + RIGHT as u64,
        depth: link.depth,
        parent: link.parent,
    }))?;
    pending.push(Pending::Place(Member {
        parent: link.parent,
        id: link.target,
    }))?;
    pending.push(Pending::Visit(Link {
        target: entry.left,
        place: place + LEFT as u64,
        depth: link.depth,
        parent: link.parent,
    }))?;
    Ok(())
}

/// The entries under a link, each with its storage. The first fault of the walk. [MS-CFB 2.6.4]
pub fn walk_directory(
    alloc: Global,
    sectors: &Sectors<'_>,
    first: Link,
    marks: &mut SectorMarks,
) -> Result<Walked, Stop>
    requires marks { length marks.old ≡ (directory_of sectors.now).count }
    requires depth { first.depth ≤ 1 }
    requires parent { first.parent < (directory_of sectors.now).count }
    ensures answer { (seen : List ℕ) → Marks marks.old seen → Gives walked result (walk_of (directory_of sectors.now) first seen) }
    ensures marked { (seen : List ℕ) → Marks marks.old seen → IfOk result (λ w. Marks marks.new (seen ++ w.visits.items)) }
    ensures order { IfOk result (λ w. All (IsInside (directory_of sectors.now).count) w.order.items) }
    ensures visits { IfOk result (λ w. All (λ n. n < (directory_of sectors.now).count) w.visits.items) }
    ensures length { length marks.new ≡ length marks.old }
{
    let mut order = Vec::new(alloc);
    let mut visits = Vec::new(alloc);
    let mut pending = Vec::new(alloc);
    pending.push(Pending::Visit(first))?;
    while let Some(next) = pending.pop() {
        match next {
            Pending::Place(child) => order.push(child)?,
            Pending::Visit(link) => {
                if link.target != NO_LINK {
                    let entry = visit_entry(sectors, link, marks)?;
                    visits.push(link.target)?;
                    let place = sectors.entry_offset(link.target);
                    put_off(&mut pending, link, entry, place)?;
                }
            }
        }
    }
    Ok(Walked { order, visits })
}
