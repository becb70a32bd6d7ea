//! Messages as JSON texts, and back.
ghost use Rattle.std.specs.Prelude.{◌≡◌, ◌≤◌, length};
ghost use Rattle.carrier_io.specs.Causes.{Rose};
ghost use Rattle.carrier_model.specs.Bytes.{MOST_BYTES};
ghost use Rattle.msg_tree.specs.Whole.{plain_of};
ghost use Rattle.json_model.specs.JsonMeanings.{MOST_JSON};
ghost use Rattle.outlook_cli.specs.Outcome.{PutsJson, TellsJson, TellsTree, WritesNothing};

use crate::changing::write_file;
use crate::telling::{put_text, stopped};
use carrier_io::{Blob, Sink};
use msg_tree::{Limit, Tree};
use outlook_status::Status;
use std::alloc::Global;
use translate_core::{Input, accept};
use tree_from_json::{JsonEnd, tree_of};
use tree_json::{JsonText, json_length};

/// The most bytes of a JSON text.
pub const JSON_LIMIT: usize = 33_554_432;

/// Writes the JSON text of a message, unless it is too long: it is measured first, and then written as it comes.
/// [RFC 8259]
fn write_json<B: Blob, O: Sink>(tree: &Tree<B>, output: &mut O) -> Status
    ensures puts { PutsJson (plain_of tree.now) (O.held output.old) (O.held output.new) result }
    ensures nothing { WritesNothing result output.old output.new }
    ensures fault { result ≡ Status.WriteFault → Rose (O.faults output.old) (O.faults output.new) }
    ensures no_usage { result ≡ Status.Usage → ⊥ }
    ensures no_read_fault { result ≡ Status.ReadFault → ⊥ }
{
    let Ok(length) = json_length(tree) else {
        return Status::NoMemory;
    };
    if length > JSON_LIMIT as u64 {
        return Status::Unfit(Limit::Size(length));
    }
    put_text(&JsonText { tree }, output)
}

/// Writes the JSON text of the message that bytes mean.
pub fn json_bytes<O: Sink>(alloc: Global, bytes: &[u8], output: &mut O) -> Status
    requires { length bytes.now ≤ MOST_BYTES }
    ensures told { TellsJson bytes.now (O.held output.old) (O.held output.new) result }
    ensures nothing { WritesNothing result output.old output.new }
    ensures fault { result ≡ Status.WriteFault → Rose (O.faults output.old) (O.faults output.new) }
    ensures no_usage { result ≡ Status.Usage → ⊥ }
    ensures no_read_fault { result ≡ Status.ReadFault → ⊥ }
{
    match accept(alloc, bytes) {
        Err(stop) => stopped(stop),
        Ok(Input::Msg(accepted)) => write_json(&accepted.tree, output),
        Ok(Input::Tnef(accepted)) => write_json(&accepted.tree, output),
    }
}

/// Writes the .msg file of the message that a JSON text means. [MS-OXMSG 2.3]
pub fn tree_bytes<O: Sink>(alloc: Global, bytes: &[u8], output: &mut O) -> Status
    requires { length bytes.now ≤ MOST_JSON }
    ensures told { TellsTree bytes.now (O.held output.old) (O.held output.new) result }
    ensures nothing { WritesNothing result output.old output.new }
    ensures fault { result ≡ Status.WriteFault → Rose (O.faults output.old) (O.faults output.new) }
    ensures no_usage { result ≡ Status.Usage → ⊥ }
    ensures no_read_fault { result ≡ Status.ReadFault → ⊥ }
{
    match tree_of(alloc, bytes) {
        Ok(tree) => write_file(alloc, &tree, output),
        Err(JsonEnd::Fault(fault)) => Status::Json(fault),
        Err(JsonEnd::NoMemory) => Status::NoMemory,
    }
}
