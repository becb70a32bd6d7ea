//! Messages in messages, read.
ghost use Rattle.json_values.specs.View.{view};
ghost use Rattle.json_model.specs.MessageForms as plain;
ghost use Rattle.json_model.specs.Parts.{read_each};
ghost use Rattle.json_model.specs.Properties.{read_props as props_meant};
ghost use Rattle.msg_tree.specs.Meaning.{tree_of, list_of, attached_of};
ghost use Rattle.tree_from_json.specs.Ends.{Reads};

use crate::read_ends::{JsonWhy, ReadEnd, fault_here, under};
use crate::read_parts::{has_members, items, member};
use crate::read_props::read_props;
use crate::read_stores::read_store;
use json_values::{Value, unboxed};
use msg_tree::{Attachment, Attachments, Body, Message, Recipients};
use std::alloc::Global;

fn read_recipients(alloc: Global, value: &Value) -> Result<Recipients<Vec<u8>>, ReadEnd>
    ensures { Reads (λ r. r) (read_each props_meant (view value.now)) result }
{
    let values = unboxed(items(alloc, value)?);
    let mut all = Recipients::with_capacity(alloc, values.len())?;
    for k in 0..values.len() {
        let props = under(read_props(alloc, &values[k]), k as u64)?;
        all.push(props)?;
    }
    Ok(all)
}

/// An attachment whose properties are all.
fn read_plain(alloc: Global, value: &Value) -> Result<Attachment<Vec<u8>>, ReadEnd>
    ensures { Reads (attached_of (λ b. b.items)) (plain.read_plain (view value.now)) result }
{
    let properties = member(alloc, value, "properties")?;
    let props = under(read_props(alloc, properties), 0)?;
    let body = Body::Plain;
    Ok(Attachment { props, body })
}

/// An attachment with a store.
fn read_storing(alloc: Global, value: &Value) -> Result<Attachment<Vec<u8>>, ReadEnd>
    ensures { Reads (attached_of (λ b. b.items)) (plain.read_storing (view value.now)) result }
{
    let properties = member(alloc, value, "properties")?;
    let props = under(read_props(alloc, properties), 0)?;
    let store = member(alloc, value, "store")?;
    let store = under(read_store(alloc, store), 1)?;
    let body = Body::Store(store);
    Ok(Attachment { props, body })
}

/// An attachment with a message, where so many levels may still be, its own among them.
#[cycle(reading)]
fn read_embedding(alloc: Global, value: &Value, levels: u64) -> Result<Attachment<Vec<u8>>, ReadEnd>
    ensures { Reads (attached_of (λ b. b.items)) (plain.read_embedding (plain.read_within levels) (view value.now)) result }
{
    let message = member(alloc, value, "message")?;
    let message = under(read_message(alloc, message, levels), 0)?;
    let properties = member(alloc, value, "properties")?;
    let props = under(read_props(alloc, properties), 1)?;
    let body = Body::Message(Box::new(alloc, message)?);
    Ok(Attachment { props, body })
}

#[cycle(reading)]
fn read_attachment(
    alloc: Global,
    value: &Value,
    levels: u64,
) -> Result<Attachment<Vec<u8>>, ReadEnd>
    ensures { Reads (attached_of (λ b. b.items)) (plain.read_attachment (plain.read_within levels) (view value.now)) result }
{
    if has_members(value, &["properties"]) {
        return read_plain(alloc, value);
    }
    if has_members(value, &["message", "properties"]) {
        return read_embedding(alloc, value, levels);
    }
    if has_members(value, &["properties", "store"]) {
        return read_storing(alloc, value);
    }
    Err(fault_here(alloc, JsonWhy::Form))
}

#[cycle(reading)]
fn read_attachments(
    alloc: Global,
    value: &Value,
    levels: u64,
) -> Result<Attachments<Vec<u8>>, ReadEnd>
    ensures { Reads (list_of (λ b. b.items)) (read_each (plain.read_attachment (plain.read_within levels)) (view value.now)) result }
{
    let values = unboxed(items(alloc, value)?);
    let mut all = Attachments::with_capacity(alloc, values.len())?;
    for k in 0..values.len() {
        let attachment = under(read_attachment(alloc, &values[k], levels), k as u64)?;
        all.push(attachment)?;
    }
    Ok(all)
}

/// A message with all that is in it, where so many levels may still be.
#[cycle(reading)]
pub(crate) fn read_message(
    alloc: Global,
    value: &Value,
    levels: u64,
) -> Result<Message<Vec<u8>>, ReadEnd>
    ensures { Reads (tree_of (λ b. b.items)) (plain.read_within levels (view value.now)) result }
{
    if !has_members(value, &["attachments", "properties", "recipients"]) {
        return Err(fault_here(alloc, JsonWhy::Form));
    }
    if levels == 0 {
        return Err(fault_here(alloc, JsonWhy::Deep));
    }
    let attachments = member(alloc, value, "attachments")?;
    let attachments = under(read_attachments(alloc, attachments, levels - 1), 0)?;
    let properties = member(alloc, value, "properties")?;
    let props = under(read_props(alloc, properties), 1)?;
    let recipients = member(alloc, value, "recipients")?;
    let recipients = under(read_recipients(alloc, recipients), 2)?;
    Ok(Message {
        props,
        recipients,
        attachments,
    })
}
