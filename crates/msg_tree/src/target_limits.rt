//! What a target has no room for.
ghost use Rattle.std.specs.Prelude.{◌≡◌, flat_map};
ghost use Rattle.std.specs.Option.{option_map};
ghost use Rattle.carrier_model.specs.Limits.{first_limit, passed_by};
ghost use Rattle.carrier_model.specs.Tree as plain;
ghost use Rattle.msg_tree.specs.Limiting.{limit_of};
ghost use Rattle.msg_tree.specs.Meaning.{tree_of, attached_of};

use crate::messages::{Attachment, Body, Message};
use carrier_io::Blob;

/// The greatest number of recipients of a message in a .msg file.
const GREATEST_RECIPIENTS: usize = 2048;

/// The greatest number of attachments of a message in a .msg file.
const GREATEST_ATTACHMENTS: usize = 2048;

/// A limit of a target that a tree passes, with the counted number.
#[derive(Clone, Copy, Debug, PartialEq, Eq)]
pub enum Limit {
    /// The distinct names of the whole tree.
    Names(u64),
    /// The recipients of one message.
    Recipients(u64),
    /// The attachments of one message.
    Attachments(u64),
    /// The bytes of the output.
    Size(u64),
}

/// The first limit that a message, or one below it, passes in a .msg file.
#[cycle(limits)]
pub fn first_passed<B: Blob>(message: &Message<B>) -> Option<Limit>
    ensures { option_map limit_of result ≡ first_limit (flat_map passed_by (plain.messages_in (tree_of B.bytes message.now))) }
{
    if let Some(limit) = own_passed(message) {
        return Some(limit);
    }
    let attachments = &message.attachments;
    for k in 0..attachments.len() {
        if let Some(limit) = passed_at(attachments.get(k)) {
            return Some(limit);
        }
    }
    None
}

#[cycle(limits)]
fn passed_at<B: Blob>(attachment: &Attachment<B>) -> Option<Limit>
    ensures { option_map limit_of result ≡ first_limit (flat_map passed_by (plain.messages_at (attached_of B.bytes attachment.now))) }
{
    match &attachment.body {
        Body::Message(inner) => first_passed(inner),
        Body::Plain => None,
        Body::Store(_) => None,
    }
}

// The first limit that a message passes by itself.
fn own_passed<B: Blob>(message: &Message<B>) -> Option<Limit>
    ensures { option_map limit_of result ≡ first_limit (passed_by (tree_of B.bytes message.now)) }
{
    let recipients = message.recipients.len();
    if recipients > GREATEST_RECIPIENTS {
        return Some(Limit::Recipients(recipients as u64));
    }
    let attachments = message.attachments.len();
    if attachments > GREATEST_ATTACHMENTS {
        return Some(Limit::Attachments(attachments as u64));
    }
    None
}
