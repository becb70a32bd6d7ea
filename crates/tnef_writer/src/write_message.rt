//! The canonical stream of a message, written as it is made.
ghost use Rattle.std.specs.Prelude.{◌≡◌, ◌≤◌, ◌<◌, ◌^◌, ◌++◌, ◌+◌, All, length};
ghost use Rattle.tnef_model.specs.LegacyAttributes as plain_ids;
ghost use Rattle.tnef_model.specs.TnefCanonical as canon;
ghost use Rattle.carrier_model.specs.Tree as plain;
ghost use Rattle.msg_tree.specs.Meaning.{tree_of, attached_of};
ghost use Rattle.prop_values.specs.Meaning.{value_of};
ghost use Rattle.tnef_writer.specs.Carried.{IsCarried, held_bytes, object_value};
ghost use Rattle.tnef_writer.specs.MessagePlans.{AreOf};
ghost use Rattle.tnef_writer.specs.TreeStores.{stores_in, stores_at};
ghost use Rattle.tnef_writer.specs.Written.{own_bytes, attachment_bytes, attached_list, carried_list, Includes};
ghost use Rattle.tnef_props.specs.Named.{HasNames};
ghost use Rattle.carrier_io.specs.Summed.{Sums};

use crate::planned::Planned;
use crate::write_attributes::append_attribute;
use crate::write_lists::{ListContent, append_filled};
use crate::write_objects::{Carried, append_head, append_store};
use carrier_io::{Blob, Failed, Sink, append, append_zeros, le16, le32, pad4};
use msg_tree::{Attachment, Body, Message, Recipients};
use prop_names::{Key, NameSet};
use prop_values::{Kind, Props, Value};
use tnef_attributes::{attribute_head, ids};
use tnef_props::{append_range, list_size, object_place};

/// The code page that is written where no property gives one.
const PLAIN_PAGE: u32 = 1252;

/// The position that is written where no property gives one.
const NO_POSITION: u32 = 0xffff_ffff;

/// The bits of a value of one number; 0 of every other.
fn bits_of<B: Blob>(value: &Value<B>) -> u64
    ensures { result ≡ canon.bits_in (value_of B.bytes value.now) }
{
    match value {
        Value::Number { bits, .. } => *bits,
        _ => 0,
    }
}

/// The Integer32 of an id, or else a number.
fn integer_or<B: Blob>(props: &Props<B>, id: u16, other: u32) -> u32
    ensures { result ≡ canon.integer_or props.now id other }
{
    match props.find(&Key::Id(id), Kind::Integer32) {
        Some(at) => bits_of(&props.get(at).value) as u32,
        None => other,
    }
}

/// Appends signature, key and version.
fn append_front<W: Sink>(sink: &mut W) -> Result<u16, Failed>
    ensures { Sums (W.held sink.old) (W.held sink.new) (W.faults sink.old) (W.faults sink.new) result canon.front }
{
    append(
        sink,
        &[
            0x78, 0x9f, 0x3e, 0x22, 1, 0, 1, 0x06, 0x90, 0x08, 0, 4, 0, 0, 0, 0, 0, 1, 0, 1, 0,
        ],
    )
}

/// Appends the code page.
fn append_page<B: Blob, W: Sink>(sink: &mut W, props: &Props<B>) -> Result<u16, Failed>
    ensures { Sums (W.held sink.old) (W.held sink.new) (W.faults sink.old) (W.faults sink.new) result (canon.page_attribute props.now) }
{
    let page = le32(integer_or(props, 0x3ffd, PLAIN_PAGE));
    append_attribute(
        sink,
        1,
        ids::CODE_PAGE,
        &[page[0], page[1], page[2], page[3], 0, 0, 0, 0],
    )
}

/// Appends the beginning of an attachment: its type, its position, and zeros.
fn append_rendering<B: Blob, W: Sink>(sink: &mut W, props: &Props<B>) -> Result<u16, Failed>
    ensures { Sums (W.held sink.old) (W.held sink.new) (W.faults sink.old) (W.faults sink.new) result (canon.rendering_attribute props.now) }
{
    let place = le32(integer_or(props, 0x370b, NO_POSITION));
    append_attribute(
        sink,
        2,
        ids::RENDERING,
        &[
            1, 0, place[0], place[1], place[2], place[3], 0, 0, 0, 0, 0, 0, 0, 0,
        ],
    )
}

/// Appends the recipients; nothing where there are none.
fn append_recipients<B: Blob, W: Sink>(
    sink: &mut W,
    names: &NameSet,
    recipients: &Recipients<B>,
) -> Result<u16, Failed>
    requires fits { length (canon.recipients_attribute names.now recipients.now) < 2 ^ 32 }
    requires known { All (HasNames names.now) recipients.now }
    requires few { length names.now ≤ 32000 }
    ensures { Sums (W.held sink.old) (W.held sink.new) (W.faults sink.old) (W.faults sink.new) result (canon.recipients_attribute names.now recipients.now) }
{
    if recipients.len() == 0 {
        return Ok(0);
    }
    append_filled(
        sink,
        names,
        1,
        ids::RECIPIENTS,
        &ListContent::Table(recipients),
    )
}

/// Appends the front and the code page.
fn append_start<B: Blob, W: Sink>(sink: &mut W, props: &Props<B>) -> Result<u16, Failed>
    ensures { Sums (W.held sink.old) (W.held sink.new) (W.faults sink.old) (W.faults sink.new) result (canon.front ++ canon.page_attribute props.now) }
{
    let front = append_front(sink)?;
    let page = append_page(sink, props)?;
    Ok(front.wrapping_add(page))
}

/// Appends the recipients and the message's properties.
fn append_own_lists<B: Blob, W: Sink>(
    sink: &mut W,
    names: &NameSet,
    props: &Props<B>,
    recipients: &Recipients<B>,
) -> Result<u16, Failed>
    requires fits { length (canon.recipients_attribute names.now recipients.now ++ canon.props_attribute names.now props.now) < 2 ^ 32 }
    requires own { HasNames names.now props.now }
    requires known { All (HasNames names.now) recipients.now }
    requires few { length names.now ≤ 32000 }
    ensures { Sums (W.held sink.old) (W.held sink.new) (W.faults sink.old) (W.faults sink.new) result (canon.recipients_attribute names.now recipients.now ++ canon.props_attribute names.now props.now) }
{
    let table = append_recipients(sink, names, recipients)?;
    let list = append_filled(
        sink,
        names,
        1,
        ids::MESSAGE_PROPS,
        &ListContent::ListOf(props),
    )?;
    Ok(table.wrapping_add(list))
}

/// Appends what stands before the attachments.
fn append_own<B: Blob, W: Sink>(
    sink: &mut W,
    names: &NameSet,
    props: &Props<B>,
    recipients: &Recipients<B>,
) -> Result<u16, Failed>
    requires fits { length (own_bytes names.now props.now recipients.now) < 2 ^ 32 }
    requires own { HasNames names.now props.now }
    requires known { All (HasNames names.now) recipients.now }
    requires few { length names.now ≤ 32000 }
    ensures { Sums (W.held sink.old) (W.held sink.new) (W.faults sink.old) (W.faults sink.new) result (own_bytes names.now props.now recipients.now) }
{
    let start = append_start(sink, props)?;
    let lists = append_own_lists(sink, names, props, recipients)?;
    Ok(start.wrapping_add(lists))
}

/// Appends the stream of a message, of which all is planned, and answers the sum of its bytes.
#[cycle(writing)]
pub fn append_message<B: Blob, W: Sink>(
    sink: &mut W,
    names: &NameSet,
    message: &Message<B>,
    planned: &Planned<'_, '_, B>,
) -> Result<u16, Failed>
    requires fits { length (canon.stream_of names.now (tree_of B.bytes message.now)) < 2 ^ 32 }
    requires planned { AreOf names.now (plain.messages_in (tree_of B.bytes message.now)) (stores_in (tree_of B.bytes message.now)) planned.now }
    requires known { Includes names.now (plain.names_in (tree_of B.bytes message.now)) }
    requires few { length names.now ≤ 32000 }
    ensures { Sums (W.held sink.old) (W.held sink.new) (W.faults sink.old) (W.faults sink.new) result (canon.stream_of names.now (tree_of B.bytes message.now)) }
{
    let mut sum = append_own(sink, names, &message.props, &message.recipients)?;
    let attachments = &message.attachments;
    let mut left = planned.below();
    for k in 0..attachments.len() {
        let attachment = attachments.get(k);
        let (own, others) = left.split(attachment);
        sum = sum.wrapping_add(append_attachment(sink, names, attachment, &own)?);
        left = others;
    }
    Ok(sum)
}

/// Appends the attributes of an attachment.
#[cycle(writing)]
fn append_attachment<B: Blob, W: Sink>(
    sink: &mut W,
    names: &NameSet,
    attachment: &Attachment<B>,
    planned: &Planned<'_, '_, B>,
) -> Result<u16, Failed>
    requires fits { length (attachment_bytes names.now (attached_of B.bytes attachment.now)) < 2 ^ 32 }
    requires planned { AreOf names.now (plain.messages_at (attached_of B.bytes attachment.now)) (stores_at (attached_of B.bytes attachment.now)) planned.now }
    requires known { Includes names.now (plain.names_at (attached_of B.bytes attachment.now)) }
    requires few { length names.now ≤ 32000 }
    ensures { Sums (W.held sink.old) (W.held sink.new) (W.faults sink.old) (W.faults sink.new) result (attachment_bytes names.now (attached_of B.bytes attachment.now)) }
{
    let rendering = append_rendering(sink, &attachment.props)?;
    let list = append_attached(sink, names, attachment, planned)?;
    Ok(rendering.wrapping_add(list))
}

/// Appends the attribute with the list of an attachment.
#[cycle(writing)]
fn append_attached<B: Blob, W: Sink>(
    sink: &mut W,
    names: &NameSet,
    attachment: &Attachment<B>,
    planned: &Planned<'_, '_, B>,
) -> Result<u16, Failed>
    requires fits { length (attached_list names.now (attached_of B.bytes attachment.now)) < 2 ^ 32 }
    requires planned { AreOf names.now (plain.messages_at (attached_of B.bytes attachment.now)) (stores_at (attached_of B.bytes attachment.now)) planned.now }
    requires known { Includes names.now (plain.names_at (attached_of B.bytes attachment.now)) }
    requires few { length names.now ≤ 32000 }
    ensures { Sums (W.held sink.old) (W.held sink.new) (W.faults sink.old) (W.faults sink.new) result (canon.attribute 2 plain_ids.ATTACHMENT (attached_list names.now (attached_of B.bytes attachment.now))) }
{
    let props = &attachment.props;
    match &attachment.body {
        Body::Plain => append_filled(sink, names, 2, ids::ATTACHMENT, &ListContent::ListOf(props)),
        Body::Message(inner) => {
            let message = Carried::Message {
                message: inner,
                size: planned.messages[0].size,
                planned: &*planned,
            };
            append_carrying(sink, names, props, &message)
        }
        Body::Store(_) => {
            append_carrying(sink, names, props, &Carried::Store(&planned.stores[0]))
        }
    }
}

/// Appends the attribute of an attachment with an Object.
#[cycle(writing)]
fn append_carrying<B: Blob, W: Sink>(
    sink: &mut W,
    names: &NameSet,
    props: &Props<B>,
    carried: &Carried<'_, '_, '_, B>,
) -> Result<u16, Failed>
    requires fits { length (carried_list names.now props.now (object_value B.bytes names.now carried.now)) < 2 ^ 32 }
    requires own { HasNames names.now props.now }
    requires carried { IsCarried B.bytes names.now carried.now }
    requires few { length names.now ≤ 32000 }
    ensures { Sums (W.held sink.old) (W.held sink.new) (W.faults sink.old) (W.faults sink.new) result (canon.attribute 2 plain_ids.ATTACHMENT (carried_list names.now props.now (object_value B.bytes names.now carried.now))) }
{
    let size = list_size(props, Some(carried.size()));
    let head = append(sink, &attribute_head(2, ids::ATTACHMENT, size as u32))?;
    let list = append_split(sink, names, props, carried)?;
    let sum = append(sink, &le16(list))?;
    Ok(head.wrapping_add(list.wrapping_add(sum)))
}

/// Appends the list of an attachment, with the Object in its place.
#[cycle(writing)]
fn append_split<B: Blob, W: Sink>(
    sink: &mut W,
    names: &NameSet,
    props: &Props<B>,
    carried: &Carried<'_, '_, '_, B>,
) -> Result<u16, Failed>
    requires fits { length (carried_list names.now props.now (object_value B.bytes names.now carried.now)) < 2 ^ 32 }
    requires own { HasNames names.now props.now }
    requires carried { IsCarried B.bytes names.now carried.now }
    requires few { length names.now ≤ 32000 }
    ensures { Sums (W.held sink.old) (W.held sink.new) (W.faults sink.old) (W.faults sink.new) result (carried_list names.now props.now (object_value B.bytes names.now carried.now)) }
{
    let place = object_place(props);
    let count = append(sink, &le32(props.len() as u32 + 1))?;
    let before = append_range(sink, props, names, 0, place)?;
    let object = append_object(sink, names, carried)?;
    let behind = append_range(sink, props, names, place, props.len())?;
    Ok(count.wrapping_add(before.wrapping_add(object.wrapping_add(behind))))
}

/// Appends the Object of an attachment: what stands before its value, the value, and padding.
#[cycle(writing)]
fn append_object<B: Blob, W: Sink>(
    sink: &mut W,
    names: &NameSet,
    carried: &Carried<'_, '_, '_, B>,
) -> Result<u16, Failed>
    requires fits { length (object_value B.bytes names.now carried.now) < 2 ^ 32 }
    requires carried { IsCarried B.bytes names.now carried.now }
    requires few { length names.now ≤ 32000 }
    ensures { Sums (W.held sink.old) (W.held sink.new) (W.faults sink.old) (W.faults sink.new) result (canon.object_bytes (object_value B.bytes names.now carried.now)) }
{
    let size = carried.size();
    let head = append_head(sink, carried, size as u32)?;
    let held = append_held(sink, names, carried)?;
    let zeros = append_zeros(sink, pad4(size))?;
    Ok(head.wrapping_add(held.wrapping_add(zeros)))
}

/// Appends what stands behind the id of the interface.
#[cycle(writing)]
fn append_held<B: Blob, W: Sink>(
    sink: &mut W,
    names: &NameSet,
    carried: &Carried<'_, '_, '_, B>,
) -> Result<u16, Failed>
    requires fits { length (held_bytes B.bytes names.now carried.now) < 2 ^ 32 }
    requires carried { IsCarried B.bytes names.now carried.now }
    requires few { length names.now ≤ 32000 }
    ensures { Sums (W.held sink.old) (W.held sink.new) (W.faults sink.old) (W.faults sink.new) result (held_bytes B.bytes names.now carried.now) }
{
    match carried {
        Carried::Message {
            message,
            planned,
            ..
        } => append_message(sink, names, message, planned),
        Carried::Store(plan) => append_store(sink, plan),
    }
}
