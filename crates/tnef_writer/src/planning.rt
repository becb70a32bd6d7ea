//! A message planned in one pass: the stream of each message in it, and the file of each store.
ghost use Rattle.std.specs.Prelude.{◌≡◌, [], ◌∷◌, List, length, IfOk, OnOk};
ghost use Rattle.std.specs.List.{flat_map};
ghost use Rattle.std.specs.Option.{option_map};
ghost use Rattle.carrier_model.specs.Keys.{Name};
ghost use Rattle.carrier_model.specs.Stores.{IsStore};
ghost use Rattle.carrier_model.specs.Totals.{capped};
ghost use Rattle.carrier_model.specs.Tree as plain;
ghost use Rattle.msg_tree.specs.Keeping.{HasStores, HaveStores, BodyHasStores};
ghost use Rattle.msg_tree.specs.Meaning.{tree_of, list_of, attached_of};
ghost use Rattle.msg_tree.specs.StoreMeaning.{store_of};
ghost use Rattle.tnef_model.specs.TnefCanonical as canon;
ghost use Rattle.tnef_writer.specs.MessagePlans.{Adds};
ghost use Rattle.tnef_writer.specs.TreeStores.{size_of, stores_in, stores_at};
ghost use Rattle.tnef_writer.specs.Written.{attachment_bytes};

use crate::planned::{MessagePlan, Planned};
use crate::write_sizes::{attachment_size, own_size};
use carrier_io::{Blob, NoMemory, PlanEnd};
use cfb_writer::Plan;
use msg_tree::{Attachment, Attachments, Body, Message, Store};
use ole_stores::store_plan;
use std::alloc::Global;

/// The bytes of an interface's id.
const INTERFACE: u64 = 16;

/// The plans of messages and of stores, each in the order in which the writer meets them. A store whose file may not be
/// an output has no plan.
#[derive(Drop)]
pub struct Plans<'t, B: Blob> {
    /// Those of the messages.
    pub messages: Vec<MessagePlan>,
    /// Those of the stores.
    pub stores: Vec<Plan<'t, B>>,
}

impl<'t, B: Blob> Plans<'t, B> {
    /// No plans.
    pub fn new(alloc: Global) -> Plans<'t, B>
        ensures messages { result.messages.items ≡ [] }
        ensures stores { result.stores.items ≡ [] }
    {
        Plans {
            messages: Vec::new(alloc),
            stores: Vec::new(alloc),
        }
    }

    /// All of them, as the writer takes them.
    pub fn planned(&self) -> Planned<'_, 't, B>
        ensures messages { result.messages.now ≡ self.now.messages.items }
        ensures stores { result.stores.now ≡ self.now.stores.items }
    {
        Planned {
            messages: &self.messages,
            stores: &self.stores,
        }
    }

    /// Plans a store, and answers how many bytes its file has.
    fn add_store(&mut self, alloc: Global, store: &'t Store<B>) -> Result<u64, NoMemory>
        requires { IsStore (store_of B.bytes store.now) }
        ensures size { IfOk result (λ size. size ≡ size_of (store_of B.bytes store.entry.now)) }
        ensures added { OnOk result ((names : List Name) → Adds names [] (store_of B.bytes store.entry.now ∷ []) self.old.messages.items self.new.messages.items self.old.stores.items self.new.stores.items) }
    {
        match store_plan(alloc, store) {
            Ok(plan) => {
                let size = plan.size();
                self.stores.push(plan)?;
                Ok(size)
            }
            Err(PlanEnd::TooLarge(size)) => Ok(size),
            Err(PlanEnd::NoMemory) => Err(NoMemory),
        }
    }
}

/// Plans a message with everything in it, and answers the bytes of its stream. After NoMemory some of the plans may be
/// there.
#[cycle(planning)]
pub fn plan_message<'t, B: Blob>(
    alloc: Global,
    message: &'t Message<B>,
    plans: &mut Plans<'t, B>,
) -> Result<u64, NoMemory>
    requires { HasStores (tree_of B.bytes message.now) }
    ensures size { IfOk result (λ size. (names : List Name) → size ≡ capped (length (canon.stream_of names (tree_of B.bytes message.entry.now)))) }
    ensures added { OnOk result ((names : List Name) → Adds names (plain.messages_in (tree_of B.bytes message.entry.now)) (stores_in (tree_of B.bytes message.entry.now)) plans.old.messages.items plans.new.messages.items plans.old.stores.items plans.new.stores.items) }
{
    let place = plans.messages.len();
    let stores = plans.stores.len();
    plans.messages.push(MessagePlan {
        size: 0,
        messages: 0,
        stores: 0,
    })?;
    let own = own_size(&message.props, &message.recipients);
    let size = own.saturating_add(plan_attachments(alloc, &message.attachments, plans)?);
    plans.messages[place] = MessagePlan {
        size,
        messages: plans.messages.len() - place,
        stores: plans.stores.len() - stores,
    };
    Ok(size)
}

/// Plans what is in some attachments, and answers the bytes of their attributes.
#[cycle(planning)]
fn plan_attachments<'t, B: Blob>(
    alloc: Global,
    attachments: &'t Attachments<B>,
    plans: &mut Plans<'t, B>,
) -> Result<u64, NoMemory>
    requires { HaveStores (plain.attachments_from (list_of B.bytes attachments.now)) }
    ensures size { IfOk result (λ size. (names : List Name) → size ≡ capped (length (flat_map (attachment_bytes names) (list_of B.bytes attachments.entry.now)))) }
    ensures added { OnOk result ((names : List Name) → Adds names (flat_map plain.messages_at (list_of B.bytes attachments.entry.now)) (flat_map stores_at (list_of B.bytes attachments.entry.now)) plans.old.messages.items plans.new.messages.items plans.old.stores.items plans.new.stores.items) }
{
    let mut size = 0u64;
    for k in 0..attachments.len() {
        size = size.saturating_add(plan_attachment(alloc, attachments.get(k), plans)?);
    }
    Ok(size)
}

/// Plans what is in an attachment, and answers the bytes of its attributes.
#[cycle(planning)]
fn plan_attachment<'t, B: Blob>(
    alloc: Global,
    attachment: &'t Attachment<B>,
    plans: &mut Plans<'t, B>,
) -> Result<u64, NoMemory>
    requires { BodyHasStores (attached_of B.bytes attachment.now).1 }
    ensures size { IfOk result (λ size. (names : List Name) → size ≡ capped (length (attachment_bytes names (attached_of B.bytes attachment.entry.now)))) }
    ensures added { OnOk result ((names : List Name) → Adds names (plain.messages_at (attached_of B.bytes attachment.entry.now)) (stores_at (attached_of B.bytes attachment.entry.now)) plans.old.messages.items plans.new.messages.items plans.old.stores.items plans.new.stores.items) }
{
    let object = plan_object(alloc, attachment, plans)?;
    Ok(attachment_size(&attachment.props, object))
}

/// Plans what is in an attachment, and answers the bytes of the value of its Object, where there is one.
#[cycle(planning)]
fn plan_object<'t, B: Blob>(
    alloc: Global,
    attachment: &'t Attachment<B>,
    plans: &mut Plans<'t, B>,
) -> Result<Option<u64>, NoMemory>
    requires { BodyHasStores (attached_of B.bytes attachment.now).1 }
    ensures size { IfOk result (λ size. (names : List Name) → option_map (λ x. capped (length x)) (canon.content_of names (attached_of B.bytes attachment.entry.now).1) ≡ size) }
    ensures added { OnOk result ((names : List Name) → Adds names (plain.messages_at (attached_of B.bytes attachment.entry.now)) (stores_at (attached_of B.bytes attachment.entry.now)) plans.old.messages.items plans.new.messages.items plans.old.stores.items plans.new.stores.items) }
{
    match &attachment.body {
        Body::Message(inner) => {
            let size = plan_message(alloc, inner, plans)?;
            Ok(Some(size.saturating_add(INTERFACE)))
        }
        Body::Plain => Ok(None),
        Body::Store(store) => {
            let size = plans.add_store(alloc, store)?;
            Ok(Some(size.saturating_add(INTERFACE)))
        }
    }
}
