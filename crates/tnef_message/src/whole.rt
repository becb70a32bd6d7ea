//! Whole streams, and the streams that lie in them. [MS-OXTNEF 2.1.3]
ghost use Rattle.std.specs.Prelude.{◌≡◌, ◌+◌, ◌≤◌, IfOk, IfErr, length};
ghost use Rattle.carrier_io.specs.Reads.{OnFault, Reads};
ghost use Rattle.tnef_model.specs.LegacyAttributes as plain;
ghost use Rattle.tnef_model.specs.TnefMessage.{TnefCarrier, TnefFault, message_within};
ghost use Rattle.tnef_attributes.specs.Views.{view};
ghost use Rattle.tnef_message.specs.Contents.{FailsPart, GivesPart, inner_at, objects_at};
ghost use Rattle.tnef_message.specs.Streams.{GivesBody, GivesMessage, inner_fails, objects_fail, stream_fails};
ghost use Rattle.msg_tree.specs.Whole.{meaning_in};

use crate::contents::plain_gift;
use crate::drafts::Draft;
use crate::gifts::Gift;
use crate::held::Held;
use crate::interfaces::{Interface, interface_of};
use crate::objects::store_in;
use carrier_io::{Fault, PassedList, Reason, Stop};
use msg_tree::{Accepted, Body, Message, Tree};
use prop_values::Part;
use std::alloc::Global;
use tnef_attributes::{Attribute, Attributes, ids};
use tnef_props::{Object, ReadList, read_list};

/// How many levels of messages may lie in a message.
const GREATEST_LEVEL: u32 = 32;

/// The message of the stream whose first byte stands at an offset of the input, where so many levels of messages may
/// lie in it. What is passed over is added to `passed`. A fault is the first.
#[cycle(reading)]
fn message_at<'a>(
    alloc: Global,
    bytes: &'a [u8],
    at: u64,
    levels: u32,
    passed: &mut PassedList,
) -> Result<Message<Held<'a>>, Stop>
    requires { at + length bytes.now ≤ 268435456 }
    ensures found { IfOk result (GivesMessage (message_within levels) at bytes.entry.now passed.old passed.new) }
    ensures fault { IfErr result (OnFault (stream_fails levels at bytes.entry.now)) }
{
    let attributes = Attributes::read(alloc, bytes, at)?;
    let mut draft = Draft::new(alloc);
    for k in 0..attributes.len() {
        let attribute = attributes.get(k);
        draft.test(attribute)?;
        let gift = gift_of(alloc, attribute, levels, passed)?;
        draft.enter(alloc, attribute, gift)?;
    }
    let message = draft.finish(alloc)?;
    Ok(message)
}

/// What the bytes of an attribute give.
#[cycle(reading)]
fn gift_of<'a>(
    alloc: Global,
    attribute: &Attribute<'a>,
    levels: u32,
    passed: &mut PassedList,
) -> Result<Gift<'a>, Stop>
    requires { attribute.now.offset + 9 + length attribute.now.bytes.now ≤ 268435456 }
    ensures found { IfOk result (GivesPart levels (view attribute.now) passed.old passed.new) }
    ensures fault { IfErr result (OnFault (FailsPart levels (view attribute.now))) }
{
    if attribute.id == ids::ATTACHMENT {
        attachment_gift(alloc, attribute, levels, passed)
    } else {
        plain_gift(alloc, attribute, passed)
    }
}

/// The list of an attachment, and what is in its Object.
#[cycle(reading)]
fn attachment_gift<'a>(
    alloc: Global,
    attribute: &Attribute<'a>,
    levels: u32,
    passed: &mut PassedList,
) -> Result<Gift<'a>, Stop>
    requires room { attribute.now.offset + 9 + length attribute.now.bytes.now ≤ 268435456 }
    requires list { attribute.now.id ≡ plain.ATTACHMENT }
    ensures found { IfOk result (GivesPart levels (view attribute.now) passed.old passed.new) }
    ensures fault { IfErr result (OnFault (FailsPart levels (view attribute.now))) }
{
    let at = attribute.offset + 9;
    let list = read_list(alloc, attribute.bytes, 0, at, Part::Attachment, passed)?;
    let ReadList {
        props,
        object,
        end: _,
    } = list;
    match object {
        Some(object) => {
            let body = body_in(alloc, object, levels, passed)?;
            Ok(Gift::AttachmentList { props, body })
        }
        None => Ok(Gift::AttachmentList {
            props,
            body: Body::Plain,
        }),
    }
}

/// What is in the Object of an attachment.
#[cycle(reading)]
fn body_in<'a>(
    alloc: Global,
    object: Object<'a>,
    levels: u32,
    passed: &mut PassedList,
) -> Result<Body<Held<'a>>, Stop>
    ensures found { IfOk result (GivesBody (objects_at levels) object.entry.offset object.entry.bytes.now passed.old passed.new) }
    ensures fault { IfErr result (OnFault (objects_fail levels object.entry.offset object.entry.bytes.now)) }
{
    match interface_of(&object)? {
        Interface::Message => message_in(alloc, object, levels, passed),
        Interface::Storage => Ok(Body::Store(store_in(alloc, object)?)),
    }
}

/// The message behind an interface's id. TooDeep at the Object's first byte where no level is left.
#[cycle(reading)]
fn message_in<'a>(
    alloc: Global,
    object: Object<'a>,
    levels: u32,
    passed: &mut PassedList,
) -> Result<Body<Held<'a>>, Stop>
    requires { 16 ≤ length object.bytes.now }
    ensures found { IfOk result (GivesBody (inner_at levels) object.entry.offset object.entry.bytes.now passed.old passed.new) }
    ensures fault { IfErr result (OnFault (inner_fails levels object.entry.offset object.entry.bytes.now)) }
{
    if levels == 0 {
        return Err(Stop::Fault(Fault {
            reason: Reason::TooDeep,
            offset: object.offset,
        }));
    }
    let (_, stream) = object.bytes.split_at(16);
    let message = message_at(alloc, stream, object.offset + 16, levels - 1, passed)?;
    Ok(Body::Message(Box::new(alloc, message)?))
}

/// The message that a whole stream means, and what stands beside it, in reading order; or its first fault.
/// [MS-OXTNEF 2.1.3]
pub fn read_tnef<'a>(alloc: Global, bytes: &'a [u8]) -> Result<Accepted<Held<'a>>, Stop>
    requires { length bytes.now ≤ 268435456 }
    ensures { Reads meaning_in result (λ m. TnefCarrier bytes.entry.now m.message m.passed) (TnefFault bytes.entry.now) }
{
    let mut passed = PassedList::new(alloc);
    let message = message_at(alloc, bytes, 0, GREATEST_LEVEL, &mut passed)?;
    let tree = Tree::from_shallow(message);
    Ok(Accepted { tree, passed })
}
