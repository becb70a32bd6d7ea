//! Sectors that a table links.
ghost use Rattle.std.specs.Prelude.{◌≡◌, ◌+◌, ◌<◌, ◌≤◌, vec_len, length, IfOk, All};
ghost use Rattle.carrier_model.specs.Marks.{mark_all, unmarked, Stops};
ghost use Rattle.carrier_io.specs.Steps.{stepped};
ghost use Rattle.cfb_sectors.specs.Stays.{Stay};

use crate::fat::Fat;
use crate::marks::SectorMarks;
use carrier_io::Walk;
use std::alloc::{AllocError, Global};

/// A list of sectors that the table links, and the number that follows it.
#[derive(Drop)]
pub struct Followed {
    pub chain: Vec<u32>,
    pub stop: u32,
}

/// Follows the table from a number, over sectors that are below the bound, whole and not marked, and marks them.
#[tactic(auto, using(carrier_model::proofs::MarkLaws::steps_of))]
pub fn follow(
    alloc: Global,
    table: &Fat,
    start: u32,
    bound: u32,
    whole: u32,
    marks: &mut SectorMarks,
    walk: &mut Walk,
) -> Result<Followed, AllocError>
    requires in_table { bound ≤ vec_len table.now.words }
    requires in_marks { bound ≤ length marks.old }
    ensures stops { IfOk result (λ f. Stops table.now.words.items start bound whole marks.old f.chain.items f.stop) }
    ensures below { IfOk result (λ f. All (λ n. n < bound) f.chain.items) }
    ensures whole { IfOk result (λ f. All (λ n. n < whole) f.chain.items) }
    ensures marked { IfOk result (λ f. marks.new ≡ mark_all marks.old f.chain.items) }
    ensures steps { IfOk result (λ f. walk.new ≡ stepped walk.old (vec_len f.chain)) }
    ensures few { IfOk result (λ f. vec_len f.chain + unmarked marks.new ≡ unmarked marks.old) }
    ensures length { length marks.new ≡ length marks.old }
    ensures stay { Stay marks.old marks.new }
    ensures bounded { walk.new + unmarked marks.new ≤ walk.old + unmarked marks.old }
    ensures grows { walk.old ≤ walk.new }
{
    let mut chain = Vec::new(alloc);
    let mut sector = start;
    while sector < bound && sector < whole && !marks.has(sector) {
        chain.push(sector)?;
        marks.mark(sector);
        sector = table.next(sector, walk);
    }
    Ok(Followed {
        chain,
        stop: sector,
    })
}
