//! Messages that edits change, each in few steps.
ghost use Rattle.std.specs.Prelude.{◌≡◌, [], IfOk, IfSome, IfNone};
ghost use Rattle.carrier_model.specs.Tree.{embedded, nothing};
ghost use Rattle.msg_tree.specs.Meaning.{attached_of, list_of, tree_of};
ghost use Rattle.tree_edit.specs.Opened.{HoldsNoMessage, open_attached_of, open_body_of, open_list_of, open_tree_of};

use crate::chunked_list::ChunkedList;
use crate::open_props::OpenProps;
use crate::open_recipients::OpenRecipients;
use carrier_io::{Blob, NoMemory};
use msg_tree::{Attachment, Attachments, Body, Message};
use std::alloc::Global;
use std::mem::replace;

/// A message, of which each part that edits changed is kept in a form where the next edit takes few steps. The other parts
/// are as they were read.
#[derive(Drop)]
#[cycle(opened)]
pub struct OpenMessage<B: Blob> {
    /// Its own properties.
    pub props: OpenProps<B>,
    /// Whom it goes to.
    pub recipients: OpenRecipients<B>,
    /// What is attached to it.
    pub attachments: OpenAttachments<B>,
}

/// What an attachment holds.
#[derive(Drop)]
#[cycle(opened)]
pub enum OpenBody<B: Blob> {
    /// What was read.
    Read(Body<B>),
    /// A message that an edit led into.
    Message(Box<OpenMessage<B>>),
}

/// An attachment.
#[derive(Drop)]
#[cycle(opened)]
pub struct OpenAttachment<B: Blob> {
    /// Its own properties.
    pub props: OpenProps<B>,
    /// What it holds.
    pub body: OpenBody<B>,
}

/// A list of attachments.
#[derive(Drop)]
#[cycle(opened)]
pub enum OpenAttachments<B: Blob> {
    /// Those that were read.
    Kept(Attachments<B>),
    /// Those of a list that an edit changed, or led into, each by itself.
    Open(ChunkedList<OpenAttachment<B>>),
}

impl<B: Blob> OpenMessage<B> {
    /// A message that no edit has changed.
    pub fn new(message: Message<B>) -> OpenMessage<B>
        ensures { open_tree_of B.bytes result ≡ tree_of B.bytes message }
    {
        let Message {
            props,
            recipients,
            attachments,
        } = message;
        OpenMessage {
            props: OpenProps::new(props),
            recipients: OpenRecipients::Kept(recipients),
            attachments: OpenAttachments::Kept(attachments),
        }
    }
}

impl<B: Blob> OpenAttachment<B> {
    /// An attachment that no edit has changed.
    pub fn new(attachment: Attachment<B>) -> OpenAttachment<B>
        ensures { open_attached_of B.bytes result ≡ attached_of B.bytes attachment }
    {
        let Attachment { props, body } = attachment;
        OpenAttachment {
            props: OpenProps::new(props),
            body: OpenBody::Read(body),
        }
    }
}

impl<B: Blob> OpenBody<B> {
    /// Takes the message out, where there is one. Nothing is left in its place.
    pub fn take_message(&mut self, alloc: Global) -> Result<Option<Box<OpenMessage<B>>>, NoMemory>
        ensures there { IfOk result (λ r. IfSome r (λ inner. open_body_of B.bytes self.old ≡ embedded (open_tree_of B.bytes inner.value))) }
        ensures absent { IfOk result (λ r. IfNone r (HoldsNoMessage (open_body_of B.bytes self.old))) }
    {
        match replace(self, OpenBody::Read(Body::Plain)) {
            OpenBody::Message(inner) => Ok(Some(inner)),
            OpenBody::Read(Body::Message(inner)) => {
                let inner = OpenMessage::new(Box::into_inner(inner));
                Ok(Some(Box::new(alloc, inner)?))
            }
            OpenBody::Read(_) => Ok(None),
        }
    }
}
