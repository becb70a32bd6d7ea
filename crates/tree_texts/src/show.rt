//! Every message with every property.
ghost use Rattle.std.specs.Prelude.{◌≤◌, ◌+◌, ◌*◌, ◌++◌, codes};
ghost use Rattle.carrier_io.specs.Known.{Writes};
ghost use Rattle.carrier_model.specs.Tree as plain;
ghost use Rattle.text_model.specs.TreeTexts.{line, prop_lines, recipient_lines, message_lines, show_text};
ghost use Rattle.msg_tree.specs.Meaning.{tree_of, attached_of};
ghost use Rattle.msg_tree.specs.Whole.{plain_of};
ghost use Rattle.tree_texts.specs.Attachments.{attachment_text};

use crate::lines::{write_counted_line, write_word_line};
use crate::props::{write_props, write_recipients};
use crate::store_totals::write_store;
use carrier_io::{Blob, Failed, Sink, Writing};
use msg_tree::{Attachment, Body, Message, Recipients, Tree};
use prop_values::Props;

/// Appends a message's own properties and its recipients.
fn write_own<B: Blob, W: Sink>(
    sink: &mut W,
    indent: usize,
    props: &Props<B>,
    recipients: &Recipients<B>,
) -> Result<(), Failed>
    requires { indent ≤ 156 }
    ensures { Writes (W.held sink.old) (W.held sink.new) (W.faults sink.old) (W.faults sink.new) result (line indent (codes "message") ++ (prop_lines (indent + 2) props.now ++ recipient_lines (indent + 2) 0 recipients.now)) }
{
    write_word_line(sink, indent, b"message")?;
    write_props(sink, indent + 2, props)?;
    write_recipients(sink, indent + 2, recipients)
}

/// Appends a message, which stands so far in. What is in it stands two further in.
#[cycle(showing)]
fn write_message<B: Blob, W: Sink>(
    sink: &mut W,
    indent: usize,
    message: &Message<B>,
) -> Result<(), Failed>
    requires { indent + 4 * plain.depth (tree_of B.bytes message.now) ≤ 128 }
    ensures { Writes (W.held sink.old) (W.held sink.new) (W.faults sink.old) (W.faults sink.new) result (message_lines indent (tree_of B.bytes message.now)) }
{
    write_own(sink, indent, &message.props, &message.recipients)?;
    let attachments = &message.attachments;
    for k in 0..attachments.len() {
        write_attachment(sink, indent + 2, k, attachments.get(k))?;
    }
    Ok(())
}

/// Appends the attachment at a place.
#[cycle(showing)]
fn write_attachment<B: Blob, W: Sink>(
    sink: &mut W,
    indent: usize,
    k: usize,
    attachment: &Attachment<B>,
) -> Result<(), Failed>
    requires { indent + 4 * plain.depth_at (attached_of B.bytes attachment.now) ≤ 130 }
    ensures { Writes (W.held sink.old) (W.held sink.new) (W.faults sink.old) (W.faults sink.new) result (attachment_text indent k (attached_of B.bytes attachment.now)) }
{
    write_counted_line(sink, indent, b"attachment", k as u64)?;
    write_props(sink, indent + 2, &attachment.props)?;
    match &attachment.body {
        Body::Plain => Ok(()),
        Body::Message(inner) => write_message(sink, indent + 2, inner),
        Body::Store(store) => write_store(sink, indent + 2, store),
    }
}

/// Appends every message of a tree with every property. Failed says that the sink failed; then a front of the text may
/// stand there.
pub fn write_show<B: Blob, W: Sink>(tree: &Tree<B>, sink: &mut W) -> Result<(), Failed>
    ensures { Writes (W.held sink.old) (W.held sink.new) (W.faults sink.old) (W.faults sink.new) result (show_text (plain_of tree.now)) }
{
    write_message(sink, 0, tree.top())
}

/// Every message of a tree with every property, as it is appended.
#[derive(Drop)]
pub struct ShowText<'t, B: Blob> {
    /// The tree.
    pub tree: &'t Tree<B>,
}

impl<'t, B: Blob> Writing for ShowText<'t, B> {
    ghost use Rattle.text_model.specs.TreeTexts.{show_text};
    ghost use Rattle.msg_tree.specs.Whole.{plain_of};

    ghost text = { λ s. show_text (plain_of s.tree.now) };

    fn write_to<W: Sink>(&self, sink: &mut W) -> Result<(), Failed> {
        write_show(self.tree, sink)
    }
}
