//! The texts that tell the message of bytes in hand.
ghost use Rattle.std.specs.Prelude.{◌≡◌, ◌≤◌, length};
ghost use Rattle.carrier_io.specs.Causes.{Rose};
ghost use Rattle.carrier_model.specs.Bytes.{MOST_BYTES};
ghost use Rattle.job_model.specs.Signatures.{is_compound};
ghost use Rattle.msg_tree.specs.Whole.{meaning_in, plain_of};
ghost use Rattle.outlook_cli.specs.Outcome.{IsText, TellsText, WritesNothing, carrier_by, shown, checked, status_of};
ghost use Rattle.text_model.specs.TreeTexts.{show_text};
ghost use Rattle.tree_texts.specs.Carriers.{carrier_of as carrier_told};

use carrier_io::{Blob, Sink, Stop, Writing, write_gathered};
use msg_tree::{Accepted, Tree, names};
use outlook_status::Status;
use std::alloc::Global;
use translate_core::{Carrier, Input, accept, carrier_of};
use tree_texts::{CheckText, ShowText, TreeCarrier};

/// The status of a reader that stopped.
pub fn stopped(stop: Stop) -> Status
    ensures { result ≡ status_of stop }
{
    match stop {
        Stop::Fault(fault) => Status::Refused(fault),
        Stop::NoMemory => Status::NoMemory,
    }
}

/// The carrier that bytes begin as, where they are a message's own.
fn tree_carrier(bytes: &[u8]) -> TreeCarrier
    ensures { carrier_told result ≡ carrier_by (is_compound bytes.now) }
{
    match carrier_of(bytes) {
        Some(Carrier::Msg) => TreeCarrier::Msg,
        _ => TreeCarrier::Tnef,
    }
}

/// Appends a text to the output.
pub fn put_text<T: Writing, O: Sink>(text: &T, output: &mut O) -> Status
    ensures told { IsText (T.text text.now) (O.held output.old) (O.held output.new) result }
    ensures nothing { WritesNothing result output.old output.new }
    ensures fault { result ≡ Status.WriteFault → Rose (O.faults output.old) (O.faults output.new) }
{
    match write_gathered(text, output) {
        Ok(()) => Status::Done,
        Err(_) => Status::WriteFault,
    }
}

/// Appends every property of a tree.
fn show_tree<B: Blob, O: Sink>(tree: &Tree<B>, output: &mut O) -> Status
    ensures told { IsText (show_text (plain_of tree.now)) (O.held output.old) (O.held output.new) result }
    ensures nothing { WritesNothing result output.old output.new }
    ensures fault { result ≡ Status.WriteFault → Rose (O.faults output.old) (O.faults output.new) }
{
    put_text(&ShowText { tree }, output)
}

/// Appends how much there is in what was accepted, and what was passed over. The names are counted first.
fn check_accepted<B: Blob, O: Sink>(
    alloc: Global,
    bytes: &[u8],
    accepted: &Accepted<B>,
    output: &mut O,
) -> Status
    ensures told { IsText (checked bytes.now (meaning_in accepted.now)) (O.held output.old) (O.held output.new) result }
    ensures nothing { WritesNothing result output.old output.new }
    ensures fault { result ≡ Status.WriteFault → Rose (O.faults output.old) (O.faults output.new) }
{
    let Ok(names) = names(alloc, &accepted.tree) else {
        return Status::NoMemory;
    };
    let carrier = tree_carrier(bytes);
    let text = CheckText::new(carrier, &accepted.tree, &accepted.passed, &names);
    put_text(&text, output)
}

/// Tells every property of the message that bytes mean.
pub fn show_bytes<O: Sink>(alloc: Global, bytes: &[u8], output: &mut O) -> Status
    requires { length bytes.now ≤ MOST_BYTES }
    ensures told { TellsText shown bytes.now (O.held output.old) (O.held output.new) result }
    ensures nothing { WritesNothing result output.old output.new }
    ensures fault { result ≡ Status.WriteFault → Rose (O.faults output.old) (O.faults output.new) }
    ensures no_usage { result ≡ Status.Usage → ⊥ }
    ensures no_read_fault { result ≡ Status.ReadFault → ⊥ }
{
    match accept(alloc, bytes) {
        Err(stop) => stopped(stop),
        Ok(Input::Msg(accepted)) => show_tree(&accepted.tree, output),
        Ok(Input::Tnef(accepted)) => show_tree(&accepted.tree, output),
    }
}

/// Tells how much there is in the message that bytes mean, and what was passed over.
pub fn check_bytes<O: Sink>(alloc: Global, bytes: &[u8], output: &mut O) -> Status
    requires { length bytes.now ≤ MOST_BYTES }
    ensures told { TellsText checked bytes.now (O.held output.old) (O.held output.new) result }
    ensures nothing { WritesNothing result output.old output.new }
    ensures fault { result ≡ Status.WriteFault → Rose (O.faults output.old) (O.faults output.new) }
    ensures no_usage { result ≡ Status.Usage → ⊥ }
    ensures no_read_fault { result ≡ Status.ReadFault → ⊥ }
{
    match accept(alloc, bytes) {
        Err(stop) => stopped(stop),
        Ok(Input::Msg(accepted)) => check_accepted(alloc, bytes, &accepted, output),
        Ok(Input::Tnef(accepted)) => check_accepted(alloc, bytes, &accepted, output),
    }
}
