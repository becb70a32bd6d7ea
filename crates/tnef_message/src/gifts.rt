//! What the bytes of an attribute give.
use crate::held::Held;
use msg_tree::{Body, Recipients};
use prop_values::Props;

/// What the bytes of an attribute give a message.
#[derive(Drop)]
pub enum Gift<'a> {
    /// Nothing but the property that the attribute stands for by itself, if any.
    Nothing,
    /// The message's list.
    MessageList(Props<Held<'a>>),
    /// The lists of the recipients.
    RecipientTable(Recipients<Held<'a>>),
    /// The list of an attachment, and what its Object holds.
    AttachmentList {
        props: Props<Held<'a>>,
        body: Body<Held<'a>>,
    },
}
