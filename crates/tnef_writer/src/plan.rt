//! The canonical stream of a tree, planned and written.
ghost use Rattle.msg_tree.specs.Whole.{plain_of};
ghost use Rattle.tnef_writer.specs.Plans.{IsPlanned};

use crate::planning::{Plans, plan_message};
use crate::write_message::append_message;
use carrier_io::{Blob, Failed, PlanEnd, Sink, Writing};
use msg_tree::Tree;
use prop_names::NameSet;
use std::alloc::Global;

/// The most bytes of an output.
const MOST_BYTES: u64 = 268_435_456;

/// What will be written for a tree. It borrows the tree and its names, and holds no output: for each message in it and
/// for each store it has a plan, in the order in which they are written.
#[derive(Drop)]
pub struct TnefPlan<'t, B: Blob> {
    tree: &'t Tree<B>,
    names: &'t NameSet,
    plans: Plans<'t, B>,
    size: u64,
    ghost planned: { IsPlanned (plain_of tree.now) names.now plans.messages.items plans.stores.items size },
}

impl<'t, B: Blob> TnefPlan<'t, B> {
    ghost use Rattle.std.specs.Prelude.{◌≡◌, ◌≤◌, None, length, IfOk, IfErr};
    ghost use Rattle.carrier_io.specs.Known.{Writes};
    ghost use Rattle.tnef_model.specs.TnefCanonical.{tnef_of};
    ghost use Rattle.carrier_model.specs.Limits.{first_limit, tnef_limits};
    ghost use Rattle.carrier_model.specs.Bytes as bytes;
    ghost use Rattle.carrier_model.specs.Tree.{names_of};
    ghost use Rattle.msg_tree.specs.Whole.{plain_of};
    ghost use Rattle.tnef_writer.specs.Plans.{IsEndOf};
    ghost use Rattle.tnef_writer.specs.PlanViews.{tree_in};

    /// A plan of the tree. TooLarge says that its stream has more bytes than an output may have, and how many; a number
    /// above the greatest `u64` stays there. NoMemory says that memory ran out.
    pub fn new(
        alloc: Global,
        tree: &'t Tree<B>,
        names: &'t NameSet,
    ) -> Result<TnefPlan<'t, B>, PlanEnd>
        requires names { names.now ≡ names_of (plain_of tree.now) }
        requires few { first_limit (tnef_limits (plain_of tree.now)) ≡ None }
        ensures value { IfOk result (λ p. tree_in p ≡ plain_of tree.now) }
        ensures fits { IfOk result (λ _. length (tnef_of (plain_of tree.now)) ≤ bytes.MOST_BYTES) }
        ensures end { IfErr result (IsEndOf (plain_of tree.now)) }
    {
        let mut plans = Plans::new(alloc);
        let size = plan_message(alloc, tree.top(), &mut plans)?;
        if size > MOST_BYTES {
            return Err(PlanEnd::TooLarge(size));
        }
        Ok(TnefPlan {
            tree,
            names,
            plans,
            size,
        })
    }

    /// How many bytes are written.
    pub fn size(&self) -> u64
        ensures { result ≡ length (tnef_of (tree_in self.now)) }
    {
        self.size
    }

    /// Appends the canonical stream. It takes no memory. Failed says that the sink failed; then a front of the stream
    /// may stand there. [MS-OXTNEF 2.1.3]
    pub fn write<W: Sink>(&self, sink: &mut W) -> Result<(), Failed>
        ensures { Writes (W.held sink.old) (W.held sink.new) (W.faults sink.old) (W.faults sink.new) result (tnef_of (tree_in self.now)) }
    {
        match append_message(sink, self.names, self.tree.top(), &self.plans.planned()) {
            Ok(_) => Ok(()),
            Err(failed) => Err(failed),
        }
    }
}

impl<'t, B: Blob> Writing for TnefPlan<'t, B> {
    ghost use Rattle.tnef_model.specs.TnefCanonical.{tnef_of};
    ghost use Rattle.tnef_writer.specs.PlanViews.{tree_in};

    ghost text = { λ p. tnef_of (tree_in p) };

    fn write_to<W: Sink>(&self, sink: &mut W) -> Result<(), Failed> {
        self.write(sink)
    }
}
