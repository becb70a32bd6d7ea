//! Trees over blobs that hold those of others.
ghost use Rattle.std.specs.Prelude.{◌≡◌, IfOk};
ghost use Rattle.msg_tree.specs.Meaning.{attached_of, body_of, list_of, tree_of};
ghost use Rattle.msg_tree.specs.Whole.{plain_of};

use crate::bounded::Tree;
use crate::messages::{Attachment, Attachments, Body, Message};
use crate::store_held::held_store;
use carrier_io::{Blob, Holds, NoMemory};
use std::alloc::Global;

#[cycle(held)]
fn held_message<B: Blob, C: Holds<B>>(
    alloc: Global,
    message: Message<B>,
) -> Result<Message<C>, NoMemory>
    ensures { IfOk result (λ r. tree_of C.bytes r ≡ tree_of B.bytes message) }
{
    let Message {
        props,
        recipients,
        attachments,
    } = message;
    Ok(Message {
        props: props.into_held(alloc)?,
        recipients: recipients.into_held(alloc)?,
        attachments: held_attachments(alloc, attachments)?,
    })
}

#[cycle(held)]
fn held_attachments<B: Blob, C: Holds<B>>(
    alloc: Global,
    attachments: Attachments<B>,
) -> Result<Attachments<C>, NoMemory>
    ensures { IfOk result (λ r. list_of C.bytes r ≡ list_of B.bytes attachments) }
{
    let mut list = Vec::with_capacity(alloc, attachments.list.len())?;
    for attachment in attachments.list {
        list.push(held_attachment(alloc, attachment)?)?;
    }
    Ok(Attachments { list })
}

#[cycle(held)]
fn held_attachment<B: Blob, C: Holds<B>>(
    alloc: Global,
    attachment: Attachment<B>,
) -> Result<Attachment<C>, NoMemory>
    ensures { IfOk result (λ r. attached_of C.bytes r ≡ attached_of B.bytes attachment) }
{
    let Attachment { props, body } = attachment;
    Ok(Attachment {
        props: props.into_held(alloc)?,
        body: held_body(alloc, body)?,
    })
}

#[cycle(held)]
fn held_body<B: Blob, C: Holds<B>>(alloc: Global, body: Body<B>) -> Result<Body<C>, NoMemory>
    ensures { IfOk result (λ r. body_of C.bytes r ≡ body_of B.bytes body) }
{
    match body {
        Body::Plain => Ok(Body::Plain),
        Body::Message(inner) => {
            let inner = held_message(alloc, Box::into_inner(inner))?;
            Ok(Body::Message(Box::new(alloc, inner)?))
        }
        Body::Store(store) => Ok(Body::Store(held_store(store)?)),
    }
}

/// The same tree over blobs that its own become. No bytes are copied but as `holding` copies them. NoMemory says that memory
/// ran out.
pub fn held_tree<B: Blob, C: Holds<B>>(alloc: Global, tree: Tree<B>) -> Result<Tree<C>, NoMemory>
    ensures { IfOk result (λ t. plain_of t ≡ plain_of tree) }
{
    Ok(Tree::from_shallow(held_message(alloc, tree.into_message())?))
}
