//! How many things a tree has.
ghost use Rattle.std.specs.Prelude.{◌≡◌, ◌+◌, [], ◌∷◌, length, sum_by};
ghost use Rattle.carrier_model.specs.Totals.{capped};
ghost use Rattle.carrier_model.specs.Tree as plain;
ghost use Rattle.msg_tree.specs.Counting.{IsCountOf};
ghost use Rattle.msg_tree.specs.Meaning.{tree_of, list_of, attached_of};

use crate::messages::{Attachment, Attachments, Body, Message};
use crate::recipient_list::Recipients;
use carrier_io::Blob;

/// How many things a tree has over all levels. A number stays at the greatest `u64` where the true one is larger.
#[derive(Clone, Copy, Debug, PartialEq, Eq)]
pub struct Counts {
    /// The messages, the top one included.
    pub messages: u64,
    /// The recipients of all messages.
    pub recipients: u64,
    /// The attachments of all messages.
    pub attachments: u64,
    /// The properties of all messages, recipients and attachments.
    pub properties: u64,
    /// The greatest level.
    pub depth: u64,
}

impl Counts {
    // No message.
    fn none() -> Counts
        ensures { IsCountOf result [] }
    {
        Counts {
            messages: 0,
            recipients: 0,
            attachments: 0,
            properties: 0,
            depth: 0,
        }
    }

    // The numbers of both, without a depth.
    fn plus(self, other: Counts) -> Counts
        ensures messages { result.messages ≡ capped (self.messages + other.messages) }
        ensures recipients { result.recipients ≡ capped (self.recipients + other.recipients) }
        ensures attachments { result.attachments ≡ capped (self.attachments + other.attachments) }
        ensures properties { result.properties ≡ capped (self.properties + other.properties) }
    {
        Counts {
            messages: self.messages.saturating_add(other.messages),
            recipients: self.recipients.saturating_add(other.recipients),
            attachments: self.attachments.saturating_add(other.attachments),
            properties: self.properties.saturating_add(other.properties),
            depth: 0,
        }
    }
}

/// How many things a message has, and all messages below it. The depth is left out.
#[cycle(totals)]
pub fn count_message<B: Blob>(message: &Message<B>) -> Counts
    ensures { IsCountOf result (plain.messages_in (tree_of B.bytes message.now)) }
{
    let mut totals = count_own(message);
    let attachments = &message.attachments;
    for k in 0..attachments.len() {
        totals = totals.plus(count_attachment(attachments.get(k)));
    }
    totals
}

#[cycle(totals)]
fn count_attachment<B: Blob>(attachment: &Attachment<B>) -> Counts
    ensures { IsCountOf result (plain.messages_at (attached_of B.bytes attachment.now)) }
{
    match &attachment.body {
        Body::Message(inner) => count_message(inner),
        Body::Plain => Counts::none(),
        Body::Store(_) => Counts::none(),
    }
}

// What a message has alone, with its recipients and attachments.
fn count_own<B: Blob>(message: &Message<B>) -> Counts
    ensures { IsCountOf result (tree_of B.bytes message.now ∷ []) }
{
    let properties = (message.props.len() as u64)
        .saturating_add(recipient_properties(&message.recipients))
        .saturating_add(attachment_properties(&message.attachments));
    Counts {
        messages: 1,
        recipients: message.recipients.len() as u64,
        attachments: message.attachments.len() as u64,
        properties,
        depth: 0,
    }
}

fn recipient_properties<B: Blob>(recipients: &Recipients<B>) -> u64
    ensures { result ≡ capped (sum_by length recipients.now) }
{
    let mut all = 0u64;
    for k in 0..recipients.len() {
        all = all.saturating_add(recipients.get(k).len() as u64);
    }
    all
}

fn attachment_properties<B: Blob>(attachments: &Attachments<B>) -> u64
    ensures { result ≡ capped (sum_by (λ (one : plain.Attached). length one.0) (list_of B.bytes attachments.now)) }
{
    let mut all = 0u64;
    for k in 0..attachments.len() {
        all = all.saturating_add(attachments.get(k).props.len() as u64);
    }
    all
}
