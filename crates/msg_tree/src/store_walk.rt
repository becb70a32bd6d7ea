//! The stores of a whole tree.
ghost use Rattle.std.specs.Prelude.{IsTrue, ◌↔◌};
ghost use Rattle.msg_tree.specs.Keeping.{HasStores, BodyHasStores};
ghost use Rattle.msg_tree.specs.Meaning.{tree_of, attached_of};

use crate::messages::{Attachment, Body, Message};
use crate::store_shape::is_store;
use carrier_io::Blob;

/// Whether each store of the message, and of all below it, keeps to what a store in an attachment keeps to.
#[cycle(walk)]
pub fn has_stores<B: Blob>(message: &Message<B>) -> bool
    ensures { IsTrue result ↔ HasStores (tree_of B.bytes message.now) }
{
    let attachments = &message.attachments;
    for k in 0..attachments.len() {
        if !attachment_has_stores(attachments.get(k)) {
            return false;
        }
    }
    true
}

#[cycle(walk)]
fn attachment_has_stores<B: Blob>(attachment: &Attachment<B>) -> bool
    ensures { IsTrue result ↔ BodyHasStores (attached_of B.bytes attachment.now).1 }
{
    match &attachment.body {
        Body::Message(inner) => has_stores(inner),
        Body::Plain => true,
        Body::Store(store) => is_store(store),
    }
}
