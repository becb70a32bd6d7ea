//! Messages written as .msg files.
ghost use Rattle.std.specs.Prelude.{◌≡◌, ◌≤◌, ℕ, List, None, length, IfOk, IfErr, OnOk};
ghost use Rattle.cfb_layout.specs.Versions.{sector_of};
ghost use Rattle.job_model.specs.Commands.{to_msg};
ghost use Rattle.msg_model.specs.WrittenMsg.{msg_in, msg_of};
ghost use Rattle.msg_tree.specs.Whole.{plain_of};
ghost use Rattle.translate_core.specs.Ends.{Caused, FileEnds, Puts, WritesNothing, ended, file_limit};
ghost use Rattle.translate_core.specs.Jobs.{file_job};
ghost use Rattle.carrier_model.specs.Bytes.{MOST_BYTES};

use crate::ends::{MsgEnd, PutEnd};
use carrier_io::{Blob, MemorySink, PlanEnd, Sink, write_gathered};
use cfb_list::grown_lists_are_trees;
use cfb_writer::{Plan, Version, sorted_lists_are_laid_out};
use msg_storage::files_of;
use msg_tree::{Limit, Tree, fits_msg, names};
use std::alloc::Global;

/// The .msg file of a tree, planned, unless the tree passes a limit. [MS-OXMSG 2.3]
fn msg_plan<'t, B: Blob>(
    alloc: Global,
    version: Version,
    tree: &'t Tree<B>,
) -> Result<Plan<'t, B>, MsgEnd>
    ensures ok { IfOk result (λ p. p ≡ msg_in (sector_of version) (plain_of tree.entry.now)) }
    ensures short { IfOk result (λ p. length p ≤ MOST_BYTES) }
    ensures fits { IfOk result (λ p. file_limit (sector_of version) (plain_of tree.entry.now) ≡ None) }
    ensures end { IfErr result (FileEnds (sector_of version) (plain_of tree.entry.now)) }
{
    grown_lists_are_trees();
    sorted_lists_are_laid_out();
    let Ok(names) = names(alloc, tree) else {
        return Err(MsgEnd::NoMemory);
    };
    if let Some(limit) = fits_msg(tree, &names) {
        return Err(MsgEnd::Unfit(limit));
    }
    let Ok(files) = files_of(alloc, tree, &names) else {
        return Err(MsgEnd::NoMemory);
    };
    match Plan::new(alloc, version, files) {
        Ok(plan) => Ok(plan),
        Err(PlanEnd::TooLarge(size)) => Err(MsgEnd::Unfit(Limit::Size(size))),
        Err(PlanEnd::NoMemory) => Err(MsgEnd::NoMemory),
    }
}

/// Writes the canonical .msg file of a tree, in either version, unless the tree passes a limit. [MS-OXMSG 2.3]
pub(crate) fn write_file<B: Blob, W: Sink>(
    alloc: Global,
    version: Version,
    tree: &Tree<B>,
    sink: &mut W,
) -> Result<(), PutEnd>
    ensures puts { (bytes : List ℕ) → Puts (file_job version) (plain_of tree.now) bytes (W.held sink.old) (W.held sink.new) (ended result) }
    ensures nothing { WritesNothing (ended result) sink.old sink.new }
    ensures cause { Caused (W.faults sink.old) (W.faults sink.new) (ended result) }
{
    match msg_plan(alloc, version, tree) {
        Err(MsgEnd::Unfit(limit)) => Err(PutEnd::Unfit(limit)),
        Err(MsgEnd::NoMemory) => Err(PutEnd::NoMemory),
        Ok(plan) => match write_gathered(&plan, sink) {
            Ok(()) => Ok(()),
            Err(_) => Err(PutEnd::WriteFault),
        },
    }
}

/// Writes the canonical .msg file of a tree, of version 3. Unfit says which limit the tree passes, the first; nothing is
/// written then, nor where memory is refused. [MS-OXMSG 2.3]
pub fn write_msg<B: Blob, W: Sink>(
    alloc: Global,
    tree: &Tree<B>,
    sink: &mut W,
) -> Result<(), PutEnd>
    ensures puts { (bytes : List ℕ) → Puts to_msg (plain_of tree.now) bytes (W.held sink.old) (W.held sink.new) (ended result) }
    ensures nothing { WritesNothing (ended result) sink.old sink.new }
    ensures cause { Caused (W.faults sink.old) (W.faults sink.new) (ended result) }
{
    write_file(alloc, Version::Three, tree, sink)
}

/// The canonical .msg file of a tree, of version 3, unless the tree passes a limit. Unfit says which, the first in the
/// order of names, recipients and attachments message by message, and bytes. NoMemory says that memory ran out.
/// [MS-OXMSG 2.3]
pub fn msg_bytes<B: Blob>(alloc: Global, tree: &Tree<B>) -> Result<Vec<u8>, MsgEnd>
    ensures ok { IfOk result (λ v. v.items ≡ msg_of (plain_of tree.now)) }
    ensures fits { OnOk result (file_limit 512 (plain_of tree.now) ≡ None) }
    ensures end { IfErr result (FileEnds 512 (plain_of tree.now)) }
{
    let plan = msg_plan(alloc, Version::Three, tree)?;
    let Ok(mut sink) = MemorySink::new(alloc, plan.size() as usize + 1, Vec::new(alloc)) else {
        return Err(MsgEnd::NoMemory);
    };
    match write_gathered(&plan, &mut sink) {
        Ok(()) => Ok(sink.into_bytes()),
        Err(_) => Err(MsgEnd::NoMemory),
    }
}
