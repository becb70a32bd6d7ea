//! A message as far as its attributes were read.
ghost use Rattle.std.specs.Prelude.{◌≡◌, ◌==◌, ◌<◌, ◌∷◌, [], ◌++◌, if◌then◌else◌, All, List, MatchOption, OnOk, IfOk, length, Some, None};
ghost use Rattle.std.specs.List.{list_any};
ghost use Rattle.carrier_io.specs.Reasons.{refusal};
ghost use Rattle.carrier_model.specs.Reasons.{DOUBLE_ATTRIBUTE};
ghost use Rattle.carrier_model.specs.Tree.{attachments_from, message};
ghost use Rattle.carrier_model.specs.Trail.{first_fault};
ghost use Rattle.tnef_model.specs.TnefMessage.{Read, Part, message_by, place_tests};
ghost use Rattle.msg_tree.specs.Meaning.{tree_of, list_of, attached_of, body_of};
ghost use Rattle.tnef_attributes.specs.Views.{view};
ghost use Rattle.tnef_message.specs.Drafts.{Fits, IsDraft, attrs_of, plain_gift};
ghost use Rattle.tnef_message.specs.HeldBytes.{held_bytes};
ghost use Rattle.tnef_message.specs.Sections.{HasId};
ghost use Rattle.tnef_message.specs.Entries.{CurrentEntered, Entered, IsFresh, Opened, OwnEntered, attached_as, closed, stands_for_data};

use crate::gifts::Gift;
use crate::held::Held;
use crate::roles::{Role, role_of};
use crate::sections::{Section, join};
use carrier_io::{Fault, NoMemory, Reason};
use msg_tree::{Attachment, Attachments, Body, Message, Recipients};
use prop_values::Props;
use std::alloc::Global;
use std::mem;
use tnef_attributes::Attribute;

/// An attachment as far as its attributes were read.
#[derive(Drop)]
pub struct Pending<'a> {
    pub section: Section<'a>,
    pub body: Body<Held<'a>>,
}

impl<'a> Pending<'a> {
    fn new(alloc: Global) -> Pending<'a>
        ensures { IsFresh result }
    {
        Pending {
            section: Section::new(alloc),
            body: Body::Plain,
        }
    }

    /// Enters an attribute with what its bytes gave.
    fn enter(&mut self, attribute: &Attribute<'a>, gift: Gift<'a>) -> Result<(), NoMemory>
        requires { length attribute.now.bytes.now < 268435456 }
        ensures { OnOk result (Entered attribute.now.id attribute.now.bytes.now gift.entry self.old self.new) }
    {
        self.section.enter(attribute)?;
        match gift {
            Gift::AttachmentList { props, body } => {
                self.section.set_list(props);
                let _old = mem::replace(&mut self.body, body);
            }
            Gift::Nothing => {}
            Gift::MessageList(_other) => {}
            Gift::RecipientTable(_other) => {}
        }
        Ok(())
    }

    /// The attachment, once all its attributes were read.
    fn finish(self, alloc: Global) -> Result<Attachment<Held<'a>>, NoMemory>
        requires { All HasId self.section.derived.items }
        ensures { IfOk result (λ a. attached_of held_bytes a ≡ attached_as self.entry.section.list self.entry.section.derived.items (body_of held_bytes self.entry.body)) }
    {
        let Pending { section, body } = self;
        let embeds = stands_for_data(&body);
        Ok(Attachment {
            props: join(alloc, section, embeds)?,
            body,
        })
    }
}

/// Whether what an attachment holds stands for its data, as a message or a store does.
fn stands_for_data(body: &Body<Held<'_>>) -> bool
    ensures { result ≡ stands_for_data (body_of held_bytes body.now) }
{
    match body {
        Body::Plain => false,
        Body::Message(_) => true,
        Body::Store(_) => true,
    }
}

/// A message as far as its attributes were read.
#[derive(Drop)]
pub struct Draft<'a> {
    pub own: Section<'a>,
    pub recipients: Recipients<Held<'a>>,
    /// The attachments of which all attributes were read.
    pub attachments: Attachments<Held<'a>>,
    /// The attachment of which attributes are being read.
    pub current: Option<Pending<'a>>,
}

/// A message of its parts.
fn message_of<'a>(
    props: Props<Held<'a>>,
    recipients: Recipients<Held<'a>>,
    attachments: Attachments<Held<'a>>,
) -> Message<Held<'a>>
    ensures { tree_of held_bytes result ≡ message props.entry recipients.entry (attachments_from (list_of held_bytes attachments.entry)) }
{
    Message {
        props,
        recipients,
        attachments,
    }
}

/// Refuses an attribute with an id that its message or its attachment has already.
fn test_once(section: &Section<'_>, attribute: &Attribute<'_>) -> Result<(), Fault>
    ensures { refusal result ≡ (if list_any (λ n. n == attribute.now.id) section.now.seen.items then Some (DOUBLE_ATTRIBUTE, attribute.now.offset) else None) }
{
    if section.has(attribute.id) {
        return Err(Fault {
            reason: Reason::DoubleAttribute,
            offset: attribute.offset,
        });
    }
    Ok(())
}

impl<'a> Draft<'a> {
    /// A draft before the first attribute.
    pub fn new(alloc: Global) -> Draft<'a>
        ensures { IsDraft [] result }
    {
        Draft {
            own: Section::new(alloc),
            recipients: Recipients::new(alloc),
            attachments: Attachments::new(alloc),
            current: None,
        }
    }

    /// Tests whether an attribute may stand behind those that were read: one of an attachment needs an attachment
    /// before it, and no id comes twice in a message or in an attachment.
    pub fn test(&self, attribute: &Attribute<'a>) -> Result<(), Fault>
        ensures { (reads : List Read) → IsDraft reads self.now → first_fault (place_tests (attrs_of reads) (view attribute.now)) ≡ refusal result }
    {
        match role_of(attribute.id) {
            Role::Message => test_once(&self.own, attribute),
            Role::NewAttachment => Ok(()),
            Role::Attachment => match &self.current {
                Some(pending) => test_once(&pending.section, attribute),
                None => Err(Fault {
                    reason: Reason::NoAttachment,
                    offset: attribute.offset,
                }),
            },
            Role::Unknown => Ok(()),
        }
    }

    /// Enters an attribute of the message itself.
    fn enter_own(&mut self, attribute: &Attribute<'a>, gift: Gift<'a>) -> Result<(), NoMemory>
        requires { length attribute.now.bytes.now < 268435456 }
        ensures { OnOk result (OwnEntered attribute.now.id attribute.now.bytes.now gift.entry self.old self.new) }
    {
        self.own.enter(attribute)?;
        match gift {
            Gift::MessageList(props) => self.own.set_list(props),
            Gift::RecipientTable(recipients) => {
                let _old = mem::replace(&mut self.recipients, recipients);
            }
            Gift::Nothing => {}
            Gift::AttachmentList {
                props: _props,
                body: _body,
            } => {}
        }
        Ok(())
    }

    /// Puts the attachment whose attributes were all read behind the others.
    fn close(&mut self, alloc: Global) -> Result<(), NoMemory>
        requires { MatchOption self.old.current (Unit {0}) (λ p. All HasId p.section.derived.items) }
        ensures own { OnOk result (self.new.own ≡ self.old.own) }
        ensures recipients { OnOk result (self.new.recipients ≡ self.old.recipients) }
        ensures current { OnOk result (self.new.current ≡ None) }
        ensures attachments { OnOk result (list_of held_bytes self.new.attachments ≡ list_of held_bytes self.old.attachments ++ closed self.old.current) }
    {
        if let Some(pending) = self.current.take() {
            let attachment = pending.finish(alloc)?;
            self.attachments.push(attachment)?;
        }
        Ok(())
    }

    /// Begins a new attachment with an attribute.
    fn open(
        &mut self,
        alloc: Global,
        attribute: &Attribute<'a>,
        gift: Gift<'a>,
    ) -> Result<(), NoMemory>
        requires few { length attribute.now.bytes.now < 268435456 }
        requires ids { MatchOption self.old.current (Unit {0}) (λ p. All HasId p.section.derived.items) }
        ensures { OnOk result (Opened attribute.now.id attribute.now.bytes.now gift.entry self.old self.new) }
    {
        self.close(alloc)?;
        let mut pending = Pending::new(alloc);
        pending.enter(attribute, gift)?;
        let _old = mem::replace(&mut self.current, Some(pending));
        Ok(())
    }

    /// Enters an attribute of the attachment that is being read.
    fn enter_current(&mut self, attribute: &Attribute<'a>, gift: Gift<'a>) -> Result<(), NoMemory>
        requires { length attribute.now.bytes.now < 268435456 }
        ensures { OnOk result (CurrentEntered attribute.now.id attribute.now.bytes.now gift.entry self.old self.new) }
    {
        if let Some(mut pending) = self.current.take() {
            pending.enter(attribute, gift)?;
            let _old = mem::replace(&mut self.current, Some(pending));
        }
        Ok(())
    }

    /// Enters an attribute that may stand behind those that were read, with what its bytes gave.
    pub fn enter(
        &mut self,
        alloc: Global,
        attribute: &Attribute<'a>,
        gift: Gift<'a>,
    ) -> Result<(), NoMemory>
        requires few { length attribute.now.bytes.now < 268435456 }
        requires known { (reads : List Read) × IsDraft reads self.old }
        requires fits { Fits attribute.now.id gift }
        ensures { OnOk result ((reads : List Read) (p : Part) → IsDraft reads self.old → first_fault (place_tests (attrs_of reads) (view attribute.now)) ≡ None → p.gift ≡ plain_gift gift.entry → IsDraft (reads ++ (view attribute.now, p) ∷ []) self.new) }
    {
        match role_of(attribute.id) {
            Role::Message => self.enter_own(attribute, gift),
            Role::NewAttachment => self.open(alloc, attribute, gift),
            Role::Attachment => self.enter_current(attribute, gift),
            Role::Unknown => Ok(()),
        }
    }

    /// The message, once all attributes were read.
    pub fn finish(mut self, alloc: Global) -> Result<Message<Held<'a>>, NoMemory>
        requires { (reads : List Read) × IsDraft reads self }
        ensures { IfOk result (λ t. (reads : List Read) → IsDraft reads self.entry → tree_of held_bytes t ≡ message_by reads) }
    {
        self.close(alloc)?;
        let Draft {
            own,
            recipients,
            attachments,
            current: _current,
        } = self;
        let props = join(alloc, own, false)?;
        Ok(message_of(props, recipients, attachments))
    }
}
