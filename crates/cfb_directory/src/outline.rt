//! What a directory has: which entries are in which storage, and by which names.
ghost use Rattle.std.specs.Prelude.{◌≤◌};
ghost use Rattle.cfb_sectors.specs.States.{entries};
ghost use Rattle.cfb_directory.specs.Outlines.{IsOutlined};
ghost use Rattle.cfb_directory.specs.Walks.{directory_of};

use crate::families::{group_children, index_families};
use crate::family::Family;
use crate::links::{Link, Walked};
use crate::walk::walk_directory;
use carrier_io::Stop;
use cfb_sectors::fields::CHILD;
use cfb_sectors::{SectorMarks, Sectors};
use std::alloc::Global;

/// The number of the root's entry [MS-CFB 2.6.2].
pub const ROOT: u32 = 0;

/// The children of each entry, and which entries were visited.
#[derive(Drop)]
pub struct Outline {
    pub families: Vec<Family>,
    pub visited: SectorMarks,
}

/// Walks over a directory from the root's child link and tests the names of each storage. The first fault of these.
pub fn read_outline(alloc: Global, sectors: &Sectors<'_>) -> Result<Outline, Stop>
    requires { 1 ≤ entries sectors.now }
    ensures { IsOutlined (directory_of sectors.now) result }
{
    let count = sectors.entries();
    let mut visited = SectorMarks::new(alloc, count as usize)?;
    visited.mark(ROOT);
    let first = Link {
        target: sectors.entry(ROOT).child,
        place: sectors.entry_offset(ROOT) + CHILD as u64,
        depth: 1,
        parent: ROOT,
    };
    let Walked { order, mut visits } = walk_directory(alloc, sectors, first, &mut visited)?;
    let mut families = group_children(alloc, count, &order)?;
    visits.insert(0, ROOT)?;
    index_families(alloc, sectors, &visits, &mut families)?;
    Ok(Outline { families, visited })
}
