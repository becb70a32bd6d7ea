//! Messages after all edits.
ghost use Rattle.std.specs.Prelude.{◌≡◌, ◌++◌, map, IfOk, OnOk};
ghost use Rattle.msg_tree.specs.Meaning.{attached_of, body_of, list_of, tree_of};
ghost use Rattle.tree_edit.specs.ChunkedLists.{listed};
ghost use Rattle.tree_edit.specs.Opened.{open_attached_of, open_body_of, open_list_of, open_tree_of};

use crate::chunked_list::ChunkedList;
use crate::open_messages::{OpenAttachment, OpenAttachments, OpenBody, OpenMessage};
use carrier_io::{Blob, NoMemory};
use msg_tree::{Attachment, Attachments, Body, Message};
use std::alloc::Global;

/// A message after all edits.
#[cycle(closing)]
pub fn close_message<B: Blob>(
    alloc: Global,
    message: OpenMessage<B>,
) -> Result<Message<B>, NoMemory>
    ensures { IfOk result (λ m. tree_of B.bytes m ≡ open_tree_of B.bytes message) }
{
    let OpenMessage {
        props,
        recipients,
        attachments,
    } = message;
    Ok(Message {
        props: props.close(alloc)?,
        recipients: recipients.close(alloc)?,
        attachments: close_attachments(alloc, attachments)?,
    })
}

#[cycle(closing)]
fn close_attachments<B: Blob>(
    alloc: Global,
    attachments: OpenAttachments<B>,
) -> Result<Attachments<B>, NoMemory>
    ensures { IfOk result (λ list. list_of B.bytes list ≡ open_list_of B.bytes attachments) }
{
    match attachments {
        OpenAttachments::Kept(list) => Ok(list),
        OpenAttachments::Open(rows) => close_rows(alloc, rows),
    }
}

#[cycle(closing)]
fn close_rows<B: Blob>(
    alloc: Global,
    rows: ChunkedList<OpenAttachment<B>>,
) -> Result<Attachments<B>, NoMemory>
    ensures { IfOk result (λ list. list_of B.bytes list ≡ map (open_attached_of B.bytes) (listed rows)) }
{
    let ChunkedList { full, last } = rows;
    let mut list = Attachments::new(alloc);
    for chunk in full {
        close_chunk(alloc, chunk, &mut list)?;
    }
    close_chunk(alloc, last, &mut list)?;
    Ok(list)
}

/// Puts the attachments of a chunk behind those of a list.
#[cycle(closing)]
fn close_chunk<B: Blob>(
    alloc: Global,
    chunk: Vec<OpenAttachment<B>>,
    list: &mut Attachments<B>,
) -> Result<(), NoMemory>
    ensures { OnOk result (list_of B.bytes list.new ≡ list_of B.bytes list.old ++ map (open_attached_of B.bytes) chunk.items) }
{
    for attachment in chunk {
        list.push(close_attachment(alloc, attachment)?)?;
    }
    Ok(())
}

#[cycle(closing)]
fn close_attachment<B: Blob>(
    alloc: Global,
    attachment: OpenAttachment<B>,
) -> Result<Attachment<B>, NoMemory>
    ensures { IfOk result (λ r. attached_of B.bytes r ≡ open_attached_of B.bytes attachment) }
{
    let OpenAttachment { props, body } = attachment;
    Ok(Attachment {
        props: props.close(alloc)?,
        body: close_body(alloc, body)?,
    })
}

#[cycle(closing)]
fn close_body<B: Blob>(alloc: Global, body: OpenBody<B>) -> Result<Body<B>, NoMemory>
    ensures { IfOk result (λ r. body_of B.bytes r ≡ open_body_of B.bytes body) }
{
    match body {
        OpenBody::Read(body) => Ok(body),
        OpenBody::Message(inner) => {
            let inner = close_message(alloc, Box::into_inner(inner))?;
            Ok(Body::Message(Box::new(alloc, inner)?))
        }
    }
}
