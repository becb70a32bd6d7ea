//! Trees whose texts are converted.
ghost use Rattle.std.specs.Prelude.{◌≡◌, ◌+◌, [], map, sum_by, length, None, OnOk, IfErr};
ghost use Rattle.msg_tree.specs.Meaning.{tree_of, list_of, attached_of};
ghost use Rattle.text8_model.specs.Unicode as plain;
ghost use Rattle.tree_text8.specs.Ends.{IsEndOf};
ghost use Rattle.tree_text8.specs.Walks.{converted_attached, bad_attached, props_at, AreOne};
ghost use Rattle.carrier_model.specs.Tree.{attachments_from};

use crate::ends::TextEnd;
use crate::properties::convert_props;
use carrier_io::{Blob, Holds};
use msg_tree::{Attachment, Attachments, Body, Message, Recipients};
use prop_values::{Kind, Prop, Props, Value};
use std::alloc::Global;

/// PidTagMessageCodepage. [MS-OXCMSG 2.2.1]
const CODEPAGE: u16 = 0x3FFD;

/// The number of the page that a property names.
fn page_named<B: Blob>(prop: &Prop<B>) -> Option<u32>
    ensures { result ≡ plain.page_named prop.now }
{
    if !prop.has_id(CODEPAGE) {
        return None;
    }
    match &prop.value {
        Value::Number {
            kind: Kind::Integer32,
            bits,
        } => Some(*bits as u32),
        _ => None,
    }
}

/// The number of a message's page: that which its properties name, or else that of the message round it.
fn page_in<B: Blob>(outer: u32, props: &Props<B>) -> u32
    ensures { result ≡ plain.page_in outer props.now }
{
    for k in 0..props.len() {
        if let Some(own) = page_named(props.get(k)) {
            return own;
        }
    }
    outer
}

/// Converts the texts of recipients into units. `next` is the number of the first property, as in all of these, and what
/// isn't converted wholly is of no use.
fn convert_recipients<C: Holds<Vec<u8>>>(
    alloc: Global,
    code: u32,
    recipients: &mut Recipients<C>,
    next: &mut u64,
) -> Result<(), TextEnd>
    ensures good { OnOk result (plain.bad_recipients code next.old recipients.old ≡ []) }
    ensures ok { OnOk result (recipients.new ≡ map (plain.converted_props code) recipients.old) }
    ensures next { OnOk result (AreOne next.new (next.old + sum_by length recipients.old)) }
    ensures end { IfErr result (IsEndOf (plain.bad_recipients code next.old recipients.old)) }
{
    for k in 0..recipients.len() {
        let mut props = recipients.replace(k, Props::new(alloc));
        convert_props(alloc, code, &mut props, next)?;
        drop(recipients.replace(k, props));
    }
    Ok(())
}

/// Converts the texts of a message into units. `outer` is the number of the page of the message round it.
#[cycle(convert)]
pub(crate) fn convert_message<C: Holds<Vec<u8>>>(
    alloc: Global,
    outer: u32,
    message: &mut Message<C>,
    next: &mut u64,
) -> Result<(), TextEnd>
    ensures good { OnOk result (plain.bad_in outer next.old (tree_of C.bytes message.old) ≡ []) }
    ensures ok { OnOk result (tree_of C.bytes message.new ≡ plain.converted_in outer (tree_of C.bytes message.old)) }
    ensures next { OnOk result (AreOne next.new (next.old + plain.props_in (tree_of C.bytes message.old))) }
    ensures end { IfErr result (IsEndOf (plain.bad_in outer next.old (tree_of C.bytes message.old))) }
{
    let code = page_in(outer, &message.props);
    convert_props(alloc, code, &mut message.props, next)?;
    convert_recipients(alloc, code, &mut message.recipients, next)?;
    convert_attachments(alloc, code, &mut message.attachments, next)
}

#[cycle(convert)]
fn convert_attachments<C: Holds<Vec<u8>>>(
    alloc: Global,
    code: u32,
    list: &mut Attachments<C>,
    next: &mut u64,
) -> Result<(), TextEnd>
    ensures good { OnOk result (plain.bad_below code next.old (attachments_from (list_of C.bytes list.old)) ≡ []) }
    ensures ok { OnOk result (list_of C.bytes list.new ≡ map (converted_attached code) (list_of C.bytes list.old)) }
    ensures next { OnOk result (AreOne next.new (next.old + sum_by props_at (list_of C.bytes list.old))) }
    ensures end { IfErr result (IsEndOf (plain.bad_below code next.old (attachments_from (list_of C.bytes list.old)))) }
{
    for k in 0..list.len() {
        let mut held = list.replace(k, Attachment::empty(alloc));
        convert_attachment(alloc, code, &mut held, next)?;
        drop(list.replace(k, held));
    }
    Ok(())
}

#[cycle(convert)]
fn convert_attachment<C: Holds<Vec<u8>>>(
    alloc: Global,
    code: u32,
    attachment: &mut Attachment<C>,
    next: &mut u64,
) -> Result<(), TextEnd>
    ensures good { OnOk result (bad_attached code next.old (attached_of C.bytes attachment.old) ≡ []) }
    ensures ok { OnOk result (attached_of C.bytes attachment.new ≡ converted_attached code (attached_of C.bytes attachment.old)) }
    ensures next { OnOk result (AreOne next.new (next.old + props_at (attached_of C.bytes attachment.old))) }
    ensures end { IfErr result (IsEndOf (bad_attached code next.old (attached_of C.bytes attachment.old))) }
{
    convert_props(alloc, code, &mut attachment.props, next)?;
    match &mut attachment.body {
        Body::Message(inner) => convert_message(alloc, code, inner, next),
        Body::Plain => Ok(()),
        Body::Store(_) => Ok(()),
    }
}
