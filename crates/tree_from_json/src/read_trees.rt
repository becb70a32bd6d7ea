//! The tree of a JSON text.
ghost use Rattle.std.specs.Prelude.{IfOk, IfErr};
ghost use Rattle.json_model.specs.JsonMeanings.{TextMeansTree};
ghost use Rattle.msg_tree.specs.Whole.{plain_of};
ghost use Rattle.tree_from_json.specs.Told.{IsFirstEnd};

use crate::read_ends::{JsonEnd, JsonFault, JsonWhy, told};
use crate::read_messages::read_message;
use carrier_io::Numbers;
use json::Scratch;
use json_values::{TextEnd, parse};
use msg_tree::Tree;
use std::alloc::Global;

/// How many levels a tree may have, the top message's among them.
const LEVELS: u64 = 33;

/// The tree that a JSON text means, or the first fault of the text. [RFC 8259]
pub fn tree_of(alloc: Global, bytes: &[u8]) -> Result<Tree<Vec<u8>>, JsonEnd>
    ensures tree { IfOk result (λ t. TextMeansTree bytes.now (plain_of t)) }
    ensures fault { IfErr result (IsFirstEnd bytes.now) }
{
    let mut scratch = Scratch::new(alloc);
    match parse(alloc, bytes, &mut scratch) {
        Ok(value) => match read_message(alloc, &value, LEVELS) {
            Ok(message) => Ok(Tree::from_shallow(message)),
            Err(end) => Err(told(alloc, end)),
        },
        Err(TextEnd::NotJson) => Err(JsonEnd::Fault(JsonFault {
            why: JsonWhy::NotJson,
            path: Numbers::new(alloc),
        })),
        Err(TextEnd::NoMemory) => Err(JsonEnd::NoMemory),
    }
}
