//! Messages that are changed, and written as .msg files.
ghost use Rattle.std.specs.Prelude.{◌≡◌, ◌≤◌, ℕ, List, IfOk, length};
ghost use Rattle.carrier_io.specs.Causes.{Rose};
ghost use Rattle.carrier_model.specs.Bytes.{MOST_BYTES};
ghost use Rattle.job_model.specs.Changes.{changed};
ghost use Rattle.job_model.specs.Commands.{to_unicode, edited as plain_edited};
ghost use Rattle.msg_tree.specs.Whole.{plain_of};
ghost use Rattle.outlook_cli.specs.Outcome.{PutsChange, PutsFile, TellsChange, WritesNothing, status_of_text};

use crate::telling::stopped;
use carrier_io::{Blob, Holds, NoMemory, Sink};
use cfb_sectors::StreamView;
use edit_words::Edits;
use msg_tree::{Tree, held_tree};
use outlook_status::Status;
use std::alloc::Global;
use tnef_message::Held;
use translate_core::{Input, PutEnd, accept, write_msg};
use tree_edit::{EditEnd, edit_in_place};
use tree_text8::{TextEnd, is_unicode, unicode_in_place};

/// Writes the .msg file of a message. [MS-OXMSG 2.3]
pub fn write_file<B: Blob, O: Sink>(alloc: Global, tree: &Tree<B>, output: &mut O) -> Status
    ensures puts { (bytes : List ℕ) → PutsFile (plain_of tree.now) bytes (O.held output.old) (O.held output.new) result }
    ensures nothing { WritesNothing result output.old output.new }
    ensures fault { result ≡ Status.WriteFault → Rose (O.faults output.old) (O.faults output.new) }
    ensures no_usage { result ≡ Status.Usage → ⊥ }
    ensures no_read_fault { result ≡ Status.ReadFault → ⊥ }
{
    match write_msg(alloc, tree, output) {
        Ok(()) => Status::Done,
        Err(PutEnd::Unfit(limit)) => Status::Unfit(limit),
        Err(PutEnd::WriteFault) => Status::WriteFault,
        Err(PutEnd::NoMemory) => Status::NoMemory,
    }
}

/// The status of a conversion that ended without a tree.
fn without_unicode(end: TextEnd) -> Status
    ensures { result ≡ status_of_text end }
{
    match end {
        TextEnd::Unmapped(unmapped) => Status::Unmapped(unmapped),
        TextEnd::NoMemory => Status::NoMemory,
    }
}

/// Writes the file of a message with its texts of 8-bit characters in 16-bit units, which are converted in place.
fn write_unicode<C: Holds<Vec<u8>>, O: Sink>(alloc: Global, tree: Tree<C>, output: &mut O) -> Status
    ensures puts { (bytes : List ℕ) → PutsChange (changed to_unicode (plain_of tree)) bytes (O.held output.old) (O.held output.new) result }
    ensures nothing { WritesNothing result output.old output.new }
    ensures fault { result ≡ Status.WriteFault → Rose (O.faults output.old) (O.faults output.new) }
    ensures no_usage { result ≡ Status.Usage → ⊥ }
    ensures no_read_fault { result ≡ Status.ReadFault → ⊥ }
{
    match unicode_in_place(alloc, tree) {
        Ok(unicode) => write_file(alloc, &unicode, output),
        Err(end) => without_unicode(end),
    }
}

/// Writes the file of the message that edits make. They change it in place.
fn write_edited<C: Holds<Vec<u8>>, O: Sink>(
    alloc: Global,
    edits: &Edits<'_>,
    tree: Tree<C>,
    output: &mut O,
) -> Status
    ensures puts { (bytes : List ℕ) → PutsChange (changed (plain_edited edits.now) (plain_of tree)) bytes (O.held output.old) (O.held output.new) result }
    ensures nothing { WritesNothing result output.old output.new }
    ensures fault { result ≡ Status.WriteFault → Rose (O.faults output.old) (O.faults output.new) }
    ensures no_usage { result ≡ Status.Usage → ⊥ }
    ensures no_read_fault { result ≡ Status.ReadFault → ⊥ }
{
    match edit_in_place(alloc, tree, edits) {
        Ok(changed) => write_file(alloc, &changed, output),
        Err(EditEnd::Fault(fault)) => Status::Edit(fault),
        Err(EditEnd::NoMemory) => Status::NoMemory,
    }
}

/// A tree of a .msg file, whose values are views of it, over blobs that owned bytes become too.
fn held_msg<'a>(alloc: Global, tree: Tree<StreamView<'a>>) -> Result<Tree<Held<'a>>, NoMemory>
    ensures { IfOk result (λ t. plain_of t ≡ plain_of tree.entry) }
{
    held_tree(alloc, tree)
}

/// Writes the file of the message of a .msg file with its texts of 8-bit characters in 16-bit units. Where it has none that
/// is converted, this is the file of the message as it was read.
fn write_unicode_msg<O: Sink>(alloc: Global, tree: Tree<StreamView<'_>>, output: &mut O) -> Status
    ensures puts { (bytes : List ℕ) → PutsChange (changed to_unicode (plain_of tree.entry)) bytes (O.held output.old) (O.held output.new) result }
    ensures nothing { WritesNothing result output.old output.new }
    ensures fault { result ≡ Status.WriteFault → Rose (O.faults output.old) (O.faults output.new) }
    ensures no_usage { result ≡ Status.Usage → ⊥ }
    ensures no_read_fault { result ≡ Status.ReadFault → ⊥ }
{
    if is_unicode(&tree) {
        return write_file(alloc, &tree, output);
    }
    match held_msg(alloc, tree) {
        Ok(held) => write_unicode(alloc, held, output),
        Err(NoMemory) => Status::NoMemory,
    }
}

/// Writes the file of the message that edits make of that of a .msg file.
fn write_edited_msg<O: Sink>(
    alloc: Global,
    edits: &Edits<'_>,
    tree: Tree<StreamView<'_>>,
    output: &mut O,
) -> Status
    ensures puts { (bytes : List ℕ) → PutsChange (changed (plain_edited edits.now) (plain_of tree.entry)) bytes (O.held output.old) (O.held output.new) result }
    ensures nothing { WritesNothing result output.old output.new }
    ensures fault { result ≡ Status.WriteFault → Rose (O.faults output.old) (O.faults output.new) }
    ensures no_usage { result ≡ Status.Usage → ⊥ }
    ensures no_read_fault { result ≡ Status.ReadFault → ⊥ }
{
    match held_msg(alloc, tree) {
        Ok(held) => write_edited(alloc, edits, held, output),
        Err(NoMemory) => Status::NoMemory,
    }
}

/// Writes the .msg file of the message that bytes mean, with its texts of 8-bit characters in 16-bit units.
pub fn unicode_bytes<O: Sink>(alloc: Global, bytes: &[u8], output: &mut O) -> Status
    requires { length bytes.now ≤ MOST_BYTES }
    ensures told { TellsChange to_unicode bytes.now (O.held output.old) (O.held output.new) result }
    ensures nothing { WritesNothing result output.old output.new }
    ensures fault { result ≡ Status.WriteFault → Rose (O.faults output.old) (O.faults output.new) }
    ensures no_usage { result ≡ Status.Usage → ⊥ }
    ensures no_read_fault { result ≡ Status.ReadFault → ⊥ }
{
    match accept(alloc, bytes) {
        Err(stop) => stopped(stop),
        Ok(Input::Msg(accepted)) => write_unicode_msg(alloc, accepted.tree, output),
        Ok(Input::Tnef(accepted)) => write_unicode(alloc, accepted.tree, output),
    }
}

/// Writes the .msg file of the message that edits make of the one that bytes mean.
pub fn edit_bytes<O: Sink>(alloc: Global, edits: &Edits<'_>, bytes: &[u8], output: &mut O) -> Status
    requires { length bytes.now ≤ MOST_BYTES }
    ensures told { TellsChange (plain_edited edits.now) bytes.now (O.held output.old) (O.held output.new) result }
    ensures nothing { WritesNothing result output.old output.new }
    ensures fault { result ≡ Status.WriteFault → Rose (O.faults output.old) (O.faults output.new) }
    ensures no_usage { result ≡ Status.Usage → ⊥ }
    ensures no_read_fault { result ≡ Status.ReadFault → ⊥ }
{
    match accept(alloc, bytes) {
        Err(stop) => stopped(stop),
        Ok(Input::Msg(accepted)) => write_edited_msg(alloc, edits, accepted.tree, output),
        Ok(Input::Tnef(accepted)) => write_edited(alloc, edits, accepted.tree, output),
    }
}
