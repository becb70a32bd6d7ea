//! The messages in messages of samples.
ghost use Rattle.std.specs.Prelude.{◌≡◌, ◌+◌, ◌<◌, [], IfOk};
ghost use Rattle.carrier_model.specs.Tree.{embedded};
ghost use Rattle.text_model.specs.SampleTrees.{level_message};
ghost use Rattle.msg_tree.specs.Meaning.{tree_of, attached_of};

use crate::small_props::subject;
use crate::sorted::alone;
use carrier_io::NoMemory;
use msg_tree::{Attachment, Attachments, Body, Message, Recipients};
use prop_values::Props;
use std::alloc::Global;

/// An attachment without properties that holds a message.
pub fn holding(alloc: Global, message: Message<Vec<u8>>) -> Result<Attachment<Vec<u8>>, NoMemory>
    ensures { IfOk result (λ r. attached_of (λ v. v.items) r ≡ ([], embedded (tree_of (λ v. v.items) message))) }
{
    let inner = Box::new(alloc, message)?;
    Ok(Attachment {
        props: Props::new(alloc),
        body: Body::Message(inner),
    })
}

/// The message of a level, with so many levels of messages below it.
pub fn at_level(alloc: Global, below: u32, level: u32) -> Result<Message<Vec<u8>>, NoMemory>
    requires { below + level < 0x1000 }
    ensures { IfOk result (λ r. tree_of (λ v. v.items) r ≡ level_message below level) }
{
    let mut attachments = Attachments::new(alloc);
    if below > 0 {
        let inner = at_level(alloc, below - 1, level + 1)?;
        attachments.push(holding(alloc, inner)?)?;
    }
    Ok(Message {
        props: alone(alloc, subject(alloc, "level", level)?)?,
        recipients: Recipients::new(alloc),
        attachments,
    })
}
