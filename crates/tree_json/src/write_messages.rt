//! Messages in messages.
ghost use Rattle.std.specs.Prelude.{OnOk, map};
ghost use Rattle.std.specs.List.{AllByRecursion};
ghost use Rattle.json_model.specs.MessageForms.{json_of, attachment_json};
ghost use Rattle.json_model.specs.Properties.{props_json, listed_json};
ghost use Rattle.json_writer.specs.Counted.{Counts};
ghost use Rattle.msg_tree.specs.Meaning.{tree_of, list_of, attached_of, body_of};
ghost use Rattle.serde_json.specs.Written.{compact_text};
ghost use Rattle.tree_json.specs.Bodies.{before_properties, behind_properties, MessageIsWhole, StoreIsWhole};
ghost use Rattle.tree_json.specs.Wholes.{IsWholeList, IsWhole, AttachedIsWhole};

use crate::write_props::write_props;
use crate::write_stores::write_store;
use carrier_io::{Blob, Failed, Sink};
use json_writer::{append, separator};
use msg_tree::{Attachment, Attachments, Body, Message, Recipients};

/// Appends the list of each recipient.
fn write_recipients<B: Blob, W: Sink>(
    sink: &mut W,
    count: &mut u64,
    recipients: &Recipients<B>,
) -> Result<(), Failed>
    ensures json { Counts (W.held sink.old) (W.held sink.new) (W.faults sink.old) (W.faults sink.new) count.old count.new result (compact_text (listed_json (map props_json recipients.now))) }
    ensures whole { OnOk result (AllByRecursion IsWholeList recipients.now) }
{
    append(sink, count, b"[")?;
    for k in 0..recipients.len() {
        append(sink, count, separator(k > 0))?;
        write_props(sink, count, recipients.get(k))?;
    }
    append(sink, count, b"]")
}

/// Appends a message with all that is in it.
#[cycle(telling)]
pub(crate) fn write_message<B: Blob, W: Sink>(
    sink: &mut W,
    count: &mut u64,
    message: &Message<B>,
) -> Result<(), Failed>
    ensures json { Counts (W.held sink.old) (W.held sink.new) (W.faults sink.old) (W.faults sink.new) count.old count.new result (compact_text (json_of (tree_of B.bytes message.now))) }
    ensures whole { OnOk result (IsWhole (tree_of B.bytes message.now)) }
{
    append(sink, count, b"{\"attachments\":")?;
    write_attachments(sink, count, &message.attachments)?;
    append(sink, count, b",\"properties\":")?;
    write_props(sink, count, &message.props)?;
    append(sink, count, b",\"recipients\":")?;
    write_recipients(sink, count, &message.recipients)?;
    append(sink, count, b"}")
}

/// Appends each attachment.
#[cycle(telling)]
fn write_attachments<B: Blob, W: Sink>(
    sink: &mut W,
    count: &mut u64,
    list: &Attachments<B>,
) -> Result<(), Failed>
    ensures json { Counts (W.held sink.old) (W.held sink.new) (W.faults sink.old) (W.faults sink.new) count.old count.new result (compact_text (listed_json (map attachment_json (list_of B.bytes list.now)))) }
    ensures whole { OnOk result (AllByRecursion AttachedIsWhole (list_of B.bytes list.now)) }
{
    append(sink, count, b"[")?;
    for k in 0..list.len() {
        append(sink, count, separator(k > 0))?;
        write_attachment(sink, count, list.get(k))?;
    }
    append(sink, count, b"]")
}

/// Appends an attachment; what is in it stands before or behind the properties, as their keys are in order.
#[cycle(telling)]
fn write_attachment<B: Blob, W: Sink>(
    sink: &mut W,
    count: &mut u64,
    attachment: &Attachment<B>,
) -> Result<(), Failed>
    ensures json { Counts (W.held sink.old) (W.held sink.new) (W.faults sink.old) (W.faults sink.new) count.old count.new result (compact_text (attachment_json (attached_of B.bytes attachment.now))) }
    ensures whole { OnOk result (AttachedIsWhole (attached_of B.bytes attachment.now)) }
{
    append(sink, count, b"{")?;
    write_embedded(sink, count, &attachment.body)?;
    append(sink, count, b"\"properties\":")?;
    write_props(sink, count, &attachment.props)?;
    write_stored(sink, count, &attachment.body)?;
    append(sink, count, b"}")
}

/// Appends a message that an attachment holds.
#[cycle(telling)]
fn write_embedded<B: Blob, W: Sink>(
    sink: &mut W,
    count: &mut u64,
    body: &Body<B>,
) -> Result<(), Failed>
    ensures json { Counts (W.held sink.old) (W.held sink.new) (W.faults sink.old) (W.faults sink.new) count.old count.new result (before_properties (body_of B.bytes body.now)) }
    ensures whole { OnOk result (MessageIsWhole (body_of B.bytes body.now)) }
{
    match body {
        Body::Message(inner) => {
            append(sink, count, b"\"message\":")?;
            write_message(sink, count, inner)?;
            append(sink, count, b",")
        }
        _ => append(sink, count, b""),
    }
}

/// Appends a store that an attachment holds.
fn write_stored<B: Blob, W: Sink>(
    sink: &mut W,
    count: &mut u64,
    body: &Body<B>,
) -> Result<(), Failed>
    ensures json { Counts (W.held sink.old) (W.held sink.new) (W.faults sink.old) (W.faults sink.new) count.old count.new result (behind_properties (body_of B.bytes body.now)) }
    ensures whole { OnOk result (StoreIsWhole (body_of B.bytes body.now)) }
{
    match body {
        Body::Store(store) => {
            append(sink, count, b",\"store\":")?;
            write_store(sink, count, store)
        }
        Body::Plain => append(sink, count, b""),
        Body::Message(_) => append(sink, count, b""),
    }
}
