//! Whether a tree has texts that are converted.
ghost use Rattle.std.specs.Prelude.{◌≡◌};
ghost use Rattle.std.specs.List.{list_any};
ghost use Rattle.carrier_model.specs.Tree.{attachments_from};
ghost use Rattle.msg_tree.specs.Meaning.{tree_of, list_of, attached_of};
ghost use Rattle.tree_text8.specs.Narrow as plain;

use crate::properties::any_to_convert;
use carrier_io::Blob;
use msg_tree::{Attachment, Attachments, Body, Message, Recipients};

/// Whether a text of any recipient is converted.
fn any_recipient_is_narrow<B: Blob>(recipients: &Recipients<B>) -> bool
    ensures { result ≡ list_any plain.are_narrow recipients.now }
{
    for k in 0..recipients.len() {
        if any_to_convert(recipients.get(k)) {
            return true;
        }
    }
    false
}

/// Whether any text of a message is converted.
#[cycle(narrow)]
pub(crate) fn is_narrow<B: Blob>(message: &Message<B>) -> bool
    ensures { result ≡ plain.is_narrow (tree_of B.bytes message.now) }
{
    any_to_convert(&message.props)
        || any_recipient_is_narrow(&message.recipients)
        || any_attachment_is_narrow(&message.attachments)
}

#[cycle(narrow)]
fn any_attachment_is_narrow<B: Blob>(list: &Attachments<B>) -> bool
    ensures { result ≡ plain.any_narrow (attachments_from (list_of B.bytes list.now)) }
{
    for k in 0..list.len() {
        if attachment_is_narrow(list.get(k)) {
            return true;
        }
    }
    false
}

#[cycle(narrow)]
fn attachment_is_narrow<B: Blob>(attachment: &Attachment<B>) -> bool
    ensures { result ≡ plain.attached_narrow (attached_of B.bytes attachment.now) }
{
    if any_to_convert(&attachment.props) {
        return true;
    }
    match &attachment.body {
        Body::Message(inner) => is_narrow(inner),
        Body::Plain => false,
        Body::Store(_) => false,
    }
}
