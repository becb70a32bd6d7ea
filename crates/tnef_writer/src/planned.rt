//! What is planned of messages and stores, as the writer takes it.
ghost use Rattle.std.specs.Prelude.{◌≡◌, ◌∷◌, ◌++◌, ◌<◌, List, length};
ghost use Rattle.carrier_model.specs.FileTrees as files;
ghost use Rattle.carrier_model.specs.Keys.{Name};
ghost use Rattle.carrier_model.specs.Tree as plain;
ghost use Rattle.carrier_model.specs.Tree.{messages_at};
ghost use Rattle.msg_tree.specs.Meaning.{attached_of};
ghost use Rattle.tnef_writer.specs.MessagePlans.{AreOf, BeginWith};
ghost use Rattle.tnef_writer.specs.TreeStores.{stores_at};

use carrier_io::Blob;
use cfb_writer::Plan;
use msg_tree::{Attachment, Body};

/// What is planned of a message: how long its stream is, and how much lies in it, at all levels.
#[derive(Drop)]
pub struct MessagePlan {
    /// The bytes of its stream. A number that is above the greatest `u64` stays there.
    pub size: u64,
    /// The messages that it is with those in it.
    pub messages: usize,
    /// The stores in it.
    pub stores: usize,
}

/// The plans of all messages and of all stores in a message or in some attachments, in the order in which the writer
/// meets them.
#[derive(Drop)]
pub struct Planned<'a, 't, B: Blob> {
    /// Those of the messages.
    pub messages: &'a [MessagePlan],
    /// Those of the stores.
    pub stores: &'a [Plan<'t, B>],
}

impl<'a, 't, B: Blob> Planned<'a, 't, B> {
    /// The plans of what is in the first attachment, and the others.
    pub fn split(&self, attachment: &Attachment<B>) -> (Planned<'a, 't, B>, Planned<'a, 't, B>)
        requires { BeginWith (attached_of B.bytes attachment.now) self.now }
        ensures own { (names : List Name) → (messages : List plain.Message) → (stores : List files.Store) → AreOf names (messages_at (attached_of B.bytes attachment.now) ++ messages) (stores_at (attached_of B.bytes attachment.now) ++ stores) self.now → AreOf names (messages_at (attached_of B.bytes attachment.now)) (stores_at (attached_of B.bytes attachment.now)) result.0 }
        ensures others { (names : List Name) → (messages : List plain.Message) → (stores : List files.Store) → AreOf names (messages_at (attached_of B.bytes attachment.now) ++ messages) (stores_at (attached_of B.bytes attachment.now) ++ stores) self.now → AreOf names messages stores result.1 }
    {
        let (messages, stores) = match &attachment.body {
            Body::Message(_) => {
                let plan = &self.messages[0];
                (plan.messages, plan.stores)
            }
            Body::Plain => (0, 0),
            Body::Store(_) => (0, 1),
        };
        let own = Planned {
            messages: &self.messages[..messages],
            stores: &self.stores[..stores],
        };
        let others = Planned {
            messages: &self.messages[messages..],
            stores: &self.stores[stores..],
        };
        (own, others)
    }

    /// The plans behind that of the first message.
    pub fn below(&self) -> Planned<'a, 't, B>
        requires { 0 < length self.now.messages.now }
        ensures { (names : List Name) → (message : plain.Message) → (messages : List plain.Message) → (stores : List files.Store) → AreOf names (message ∷ messages) stores self.now → AreOf names messages stores result }
    {
        Planned {
            messages: &self.messages[1..],
            stores: self.stores,
        }
    }
}
