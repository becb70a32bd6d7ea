//! The JSON text of a tree, and how long it is. [RFC 8259]
ghost use Rattle.std.specs.Prelude.{◌≡◌, length, IfOk, OnOk, string_bytes};
ghost use Rattle.carrier_io.specs.Known.{Writes};
ghost use Rattle.json_model.specs.JsonMeanings.{TextMeansTree};
ghost use Rattle.json_model.specs.MessageForms.{json_text};
ghost use Rattle.msg_tree.specs.Whole.{plain_of};

use crate::write_messages::write_message;
use carrier_io::{Blob, Failed, MemorySink, NoMemory, Sink, SureSink, Writing};
use msg_tree::Tree;
use std::alloc::Global;

/// How many bytes the JSON text of a tree has. NoMemory says that a u64 does not hold their number.
pub fn json_length<B: Blob>(tree: &Tree<B>) -> Result<u64, NoMemory>
    ensures length { IfOk result (λ n. n ≡ length (json_text (plain_of tree.now))) }
    ensures means { OnOk result (TextMeansTree (json_text (plain_of tree.now)) (plain_of tree.now)) }
{
    let mut count = 0;
    match write_message(&mut SureSink::new(), &mut count, tree.top()) {
        Ok(()) if count < u64::MAX => Ok(count),
        _ => Err(NoMemory),
    }
}

/// Appends the JSON text of a tree, without spaces. Failed says that the sink failed; then a front of it may stand there.
fn write_json<B: Blob, W: Sink>(tree: &Tree<B>, sink: &mut W) -> Result<(), Failed>
    ensures { Writes (W.held sink.old) (W.held sink.new) (W.faults sink.old) (W.faults sink.new) result (json_text (plain_of tree.now)) }
{
    write_message(sink, &mut 0, tree.top())
}

/// The JSON text of a tree, without spaces, as it is appended. [RFC 8259]
#[derive(Drop)]
pub struct JsonText<'t, B: Blob> {
    /// The tree.
    pub tree: &'t Tree<B>,
}

impl<'t, B: Blob> Writing for JsonText<'t, B> {
    ghost use Rattle.json_model.specs.MessageForms.{json_text};
    ghost use Rattle.msg_tree.specs.Whole.{plain_of};

    ghost text = { λ s. json_text (plain_of s.tree.now) };

    fn write_to<W: Sink>(&self, sink: &mut W) -> Result<(), Failed> {
        write_json(self.tree, sink)
    }
}

/// The JSON text of a tree, without spaces, in memory. NoMemory says that memory ran out. [RFC 8259]
pub fn json_of<B: Blob>(alloc: Global, tree: &Tree<B>) -> Result<String, NoMemory>
    ensures text { IfOk result (λ s. string_bytes s ≡ json_text (plain_of tree.now)) }
    ensures means { IfOk result (λ s. TextMeansTree (string_bytes s) (plain_of tree.now)) }
{
    let len = json_length(tree)? as usize;
    let mut sink = MemorySink::new(alloc, len, Vec::new(alloc))?;
    let Ok(()) = write_json(tree, &mut sink) else {
        return Err(NoMemory);
    };
    let Ok(text) = String::from_utf8(sink.into_bytes()) else {
        unreachable!();
    };
    Ok(text)
}
