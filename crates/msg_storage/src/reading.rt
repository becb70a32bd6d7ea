//! Messages, read.
ghost use Rattle.std.specs.Prelude.{◌≡◌, Err};
ghost use Rattle.carrier_io.specs.Reads.{Gives, Reads};
ghost use Rattle.carrier_model.specs.Outcomes.{mapped};
ghost use Rattle.carrier_model.specs.Meanings.{held_message};
ghost use Rattle.carrier_model.specs.Tree as tree;
ghost use Rattle.cfb_directory.specs.Found.{IsThere, storage_seen};
ghost use Rattle.cfb_directory.specs.Shown.{files as files_seen};
ghost use Rattle.cfb_sectors.specs.Seen.{bytes_of};
ghost use Rattle.msg_model.specs.MsgMessage.{FilesMean, attachment_in, files_meaning, held_by, held_in, is_message, message_in};
ghost use Rattle.msg_props.specs.Sections.{part_of};
ghost use Rattle.msg_storage.specs.Beside.{GivesBeside, carried_beside, held_beside, meaning_beside, pieces_beside, rows_beside};
ghost use Rattle.msg_storage.specs.Levels.{attachments_in, inner_at, recipients_in};
ghost use Rattle.msg_tree.specs.Meaning.{attached_of, body_of, list_of, tree_of};
ghost use Rattle.msg_tree.specs.Whole.{meaning_in};

use crate::names::{ATTACHMENT, OBJECT, RECIPIENT};
use crate::storages::storages_in;
use carrier_io::{Fault, PassedList, Reason, Stop};
use cfb_directory::{Files, StorageId};
use cfb_sectors::StreamView;
use msg_nameid::NameMap;
use msg_props::{PROPERTIES, Section, read_props};
use msg_tree::{Accepted, Attachment, Attachments, Body, Message, Recipients, Tree};
use ole_stores::read_store;
use prop_values::{Part, Props};
use std::alloc::Global;

/// How many levels of messages may lie in a message.
const GREATEST_LEVEL: u32 = 32;

/// A message of these parts.
fn message_of<'a>(
    props: Props<StreamView<'a>>,
    recipients: Recipients<StreamView<'a>>,
    attachments: Attachments<StreamView<'a>>,
) -> Message<StreamView<'a>>
    ensures { tree_of bytes_of result ≡ tree.message props.entry recipients.entry (tree.attachments_from (list_of bytes_of attachments.entry)) }
{
    Message {
        props,
        recipients,
        attachments,
    }
}

/// An attachment of these parts.
fn attachment_of<'a>(
    props: Props<StreamView<'a>>,
    body: Body<StreamView<'a>>,
) -> Attachment<StreamView<'a>>
    ensures { attached_of bytes_of result ≡ (props.entry, body_of bytes_of body.entry) }
{
    Attachment { props, body }
}

/// The recipients of a message. What is passed over is added to `passed`. A fault is the first.
fn read_recipients<'a>(
    alloc: Global,
    files: &Files<'a>,
    at: StorageId,
    names: &NameMap,
    passed: &mut PassedList,
) -> Result<Recipients<StreamView<'a>>, Stop>
    requires { IsThere files.now at }
    ensures { GivesBeside rows_beside passed.old passed.new result (recipients_in names.now (storage_seen files.now at)) }
{
    let storages = storages_in(alloc, files, at, RECIPIENT)?;
    let mut recipients = Recipients::with_capacity(alloc, storages.len())?;
    for k in 0..storages.len() {
        let storage = storages[k].storage;
        let list = read_props(alloc, files, storage, Part::Recipient, names, passed)?;
        recipients.push(list.props)?;
    }
    Ok(recipients)
}

/// The message of a storage, where so many levels of messages may lie in it. What is passed over is added to `passed`. A
/// fault is the first.
#[cycle(reading)]
fn read_message<'a>(
    alloc: Global,
    files: &Files<'a>,
    at: StorageId,
    part: Part,
    names: &NameMap,
    levels: u32,
    passed: &mut PassedList,
) -> Result<Message<StreamView<'a>>, Stop>
    requires { IsThere files.now at }
    ensures { GivesBeside meaning_beside passed.old passed.new result (message_in levels names.now (part_of part) (storage_seen files.now at)) }
{
    let list = read_props(alloc, files, at, part, names, passed)?;
    let recipients = read_recipients(alloc, files, at, names, passed)?;
    let attachments = read_attachments(alloc, files, at, names, levels, passed)?;
    Ok(message_of(list.props, recipients, attachments))
}

/// The attachments of a message.
#[cycle(reading)]
fn read_attachments<'a>(
    alloc: Global,
    files: &Files<'a>,
    at: StorageId,
    names: &NameMap,
    levels: u32,
    passed: &mut PassedList,
) -> Result<Attachments<StreamView<'a>>, Stop>
    requires { IsThere files.now at }
    ensures { GivesBeside pieces_beside passed.old passed.new result (attachments_in names.now (inner_at levels names.now) (storage_seen files.now at)) }
{
    let storages = storages_in(alloc, files, at, ATTACHMENT)?;
    let mut attachments = Attachments::with_capacity(alloc, storages.len())?;
    for k in 0..storages.len() {
        let storage = storages[k].storage;
        let attachment = read_attachment(alloc, files, storage, names, levels, passed)?;
        attachments.push(attachment)?;
    }
    Ok(attachments)
}

/// An attachment: its list, and what it holds.
#[cycle(reading)]
fn read_attachment<'a>(
    alloc: Global,
    files: &Files<'a>,
    at: StorageId,
    names: &NameMap,
    levels: u32,
    passed: &mut PassedList,
) -> Result<Attachment<StreamView<'a>>, Stop>
    requires { IsThere files.now at }
    ensures { GivesBeside carried_beside passed.old passed.new result (attachment_in names.now (inner_at levels names.now) (storage_seen files.now at)) }
{
    let list = read_props(alloc, files, at, Part::Attachment, names, passed)?;
    let Section { props, embedded } = list;
    match embedded {
        Some(place) => {
            let body = read_held(alloc, files, at, place, names, levels, passed)?;
            Ok(attachment_of(props, body))
        }
        None => Ok(attachment_of(props, Body::Plain)),
    }
}

/// What an attachment holds whose entry for it lies at a place. MissingStorage there where it has no storage for it.
#[cycle(reading)]
fn read_held<'a>(
    alloc: Global,
    files: &Files<'a>,
    at: StorageId,
    place: u64,
    names: &NameMap,
    levels: u32,
    passed: &mut PassedList,
) -> Result<Body<StreamView<'a>>, Stop>
    requires { IsThere files.now at }
    ensures { GivesBeside held_beside passed.old passed.new result (held_in (inner_at levels names.now) (storage_seen files.now at) place) }
{
    match files.storage(at, OBJECT) {
        Some(below) => read_body(alloc, files, below, place, names, levels, passed),
        None => Err(Stop::Fault(Fault {
            reason: Reason::MissingStorage,
            offset: place,
        })),
    }
}

/// The message or the store of a storage: a message has a list of its own.
#[cycle(reading)]
fn read_body<'a>(
    alloc: Global,
    files: &Files<'a>,
    at: StorageId,
    place: u64,
    names: &NameMap,
    levels: u32,
    passed: &mut PassedList,
) -> Result<Body<StreamView<'a>>, Stop>
    requires { IsThere files.now at }
    ensures { GivesBeside held_beside passed.old passed.new result (held_by (inner_at levels names.now) (is_message (storage_seen files.now at)) place (storage_seen files.now at)) }
{
    match files.stream(at, PROPERTIES) {
        Some(_) => read_inner(alloc, files, at, place, names, levels, passed),
        None => Ok(Body::Store(read_store(alloc, files, at)?)),
    }
}

/// The message of an attachment's storage. TooDeep at its entry where no level is left.
#[cycle(reading)]
fn read_inner<'a>(
    alloc: Global,
    files: &Files<'a>,
    at: StorageId,
    entry: u64,
    names: &NameMap,
    levels: u32,
    passed: &mut PassedList,
) -> Result<Body<StreamView<'a>>, Stop>
    requires { IsThere files.now at }
    ensures { GivesBeside held_beside passed.old passed.new result (mapped held_message (inner_at levels names.now entry (storage_seen files.now at))) }
{
    if levels == 0 {
        return Err(Stop::Fault(Fault {
            reason: Reason::TooDeep,
            offset: entry,
        }));
    }
    let message = read_message(alloc, files, at, Part::Embedded, names, levels - 1, passed)?;
    Ok(Body::Message(Box::new(alloc, message)?))
}

/// The message that the files of a .msg mean, and what stands beside it, in reading order; or the first fault: of the name
/// map, and then of the message, list by list. Values stay in the input. [MS-OXMSG 2.1 to 2.4]
pub fn read_msg<'a>(alloc: Global, files: &Files<'a>) -> Result<Accepted<StreamView<'a>>, Stop>
    ensures answer { Gives meaning_in result (files_meaning (files_seen files.now)) }
    ensures both { Reads meaning_in result (FilesMean (files_seen files.now)) (λ g. files_meaning (files_seen files.now) ≡ Err g) }
{
    let names = NameMap::read(alloc, files)?;
    let mut passed = PassedList::new(alloc);
    let root = files.root();
    let message = read_message(
        alloc,
        files,
        root,
        Part::Top,
        &names,
        GREATEST_LEVEL,
        &mut passed,
    )?;
    let tree = Tree::from_shallow(message);
    Ok(Accepted { tree, passed })
}
