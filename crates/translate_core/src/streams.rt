//! Messages written as TNEF streams.
ghost use Rattle.std.specs.Prelude.{List, ℕ};
ghost use Rattle.job_model.specs.Commands.{to_tnef};
ghost use Rattle.msg_tree.specs.Whole.{plain_of};
ghost use Rattle.translate_core.specs.Ends.{Caused, Puts, WritesNothing};

use crate::ends::End;
use carrier_io::{Blob, PlanEnd, Sink, write_gathered};
use msg_tree::{Limit, Tree, fits_tnef, names};
use std::alloc::Global;
use tnef_writer::TnefPlan;

/// Writes the canonical TNEF stream of a tree, unless it passes a limit. [MS-OXTNEF 2.1.3]
pub(crate) fn write_tnef<B: Blob, W: Sink>(
    alloc: Global,
    tree: &Tree<B>,
    sink: &mut W,
) -> Result<(), End>
    ensures puts { (bytes : List ℕ) → Puts to_tnef (plain_of tree.now) bytes (W.held sink.old) (W.held sink.new) result }
    ensures nothing { WritesNothing result sink.old sink.new }
    ensures cause { Caused (W.faults sink.old) (W.faults sink.new) result }
{
    let Ok(names) = names(alloc, tree) else {
        return Err(End::NoMemory);
    };
    if let Some(limit) = fits_tnef(tree, &names) {
        return Err(End::Unfit(limit));
    }
    match TnefPlan::new(alloc, tree, &names) {
        Err(PlanEnd::TooLarge(size)) => Err(End::Unfit(Limit::Size(size))),
        Err(PlanEnd::NoMemory) => Err(End::NoMemory),
        Ok(plan) => match write_gathered(&plan, sink) {
            Ok(()) => Ok(()),
            Err(_) => Err(End::WriteFault),
        },
    }
}
