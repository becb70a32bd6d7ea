//! The storages and streams of a message.
ghost use Rattle.std.specs.Prelude.{◌≡◌, ◌≤◌, ◌<◌, ◌∷◌, [], length, IfOk, OnOk};
ghost use Rattle.std.specs.List.{flat_map};
ghost use Rattle.carrier_model.specs.Layout.{MESSAGE_CLASS};
ghost use Rattle.carrier_model.specs.Tree as tree;
ghost use Rattle.carrier_model.specs.Tree.{names_of};
ghost use Rattle.cfb_list.specs.Grown.{grown};
ghost use Rattle.msg_model.specs.ReadBack.{BodyHasFewParts, HasFewParts};
ghost use Rattle.msg_model.specs.WrittenMsg as plain;
ghost use Rattle.msg_nameid.specs.Maps.{IsAssigned, names_in};
ghost use Rattle.msg_storage.specs.Written.{Adds, IsOfMessage, Known, attachment_tree, inside_attachment, is_top, recipient_tree};
ghost use Rattle.msg_tree.specs.Keeping.{BodyHasStores, HasStores};
ghost use Rattle.msg_tree.specs.Meaning.{attached_of, body_of, tree_of};
ghost use Rattle.msg_tree.specs.Whole.{plain_of};

use crate::names::{ATTACHMENT_UNITS, OBJECT, RECIPIENT_UNITS, object_units};
use carrier_io::{Blob, NoMemory};
use cfb_list::{FileList, grown_lists_are_trees};
use msg_nameid::NameMap;
use msg_props::{Head, add_props};
use msg_tree::{Attachment, Body, Message, Recipients, Tree};
use ole_stores::add_store;
use prop_names::NameSet;
use prop_values::{Part, Props};
use std::alloc::Global;

/// The reserved word of the entry of an attachment's message.
const MESSAGE_WORD: u32 = 1;

/// That of the entry of an attachment's store.
const STORE_WORD: u32 = 4;

/// The head of the list of a recipient or an attachment.
fn small_head(part: Part) -> Head
    ensures part { result.part ≡ part }
{
    Head {
        part,
        recipients: 0,
        attachments: 0,
    }
}

/// The reserved word of the entry of what an attachment holds.
fn word_of<B: Blob>(body: &Body<B>) -> Option<u32>
    ensures { result ≡ plain.object_word (body_of B.bytes body.now) }
{
    match body {
        Body::Plain => None,
        Body::Message(_) => Some(MESSAGE_WORD),
        Body::Store(_) => Some(STORE_WORD),
    }
}

/// Adds the storage of a recipient with its list.
fn add_recipient<'t, B: Blob>(
    alloc: Global,
    files: &mut FileList<'t, B>,
    at: usize,
    number: u32,
    props: &'t Props<B>,
    names: &NameMap,
) -> Result<(), NoMemory>
    requires at { at < length files.old.storages }
    requires assigned { IsAssigned names.now }
    requires known { Known (names_in names.now) (tree.names_in_props props.now) }
    ensures { OnOk result (Adds files.old files.new at (recipient_tree (names_in names.now) number props.now)) }
{
    let storage = files.add_numbered_storage(at, RECIPIENT_UNITS, number)?;
    let head = small_head(Part::Recipient);
    add_props(alloc, files, storage, head, props, None, names)
}

/// Adds the storages of recipients, numbered from 0.
fn add_recipients<'t, B: Blob>(
    alloc: Global,
    files: &mut FileList<'t, B>,
    at: usize,
    recipients: &'t Recipients<B>,
    names: &NameMap,
) -> Result<(), NoMemory>
    requires at { at < length files.old.storages }
    requires assigned { IsAssigned names.now }
    requires known { Known (names_in names.now) (flat_map tree.names_in_props recipients.now) }
    requires few { length recipients.now ≤ 2048 }
    ensures { OnOk result (Adds files.old files.new at (plain.recipient_files (names_in names.now) 0 recipients.now)) }
{
    grown_lists_are_trees();
    for k in 0..recipients.len() {
        add_recipient(alloc, files, at, k as u32, recipients.get(k), names)?;
    }
    Ok(())
}

/// Adds the list of a message.
fn add_list<'t, B: Blob>(
    alloc: Global,
    files: &mut FileList<'t, B>,
    at: usize,
    part: Part,
    message: &'t Message<B>,
    names: &NameMap,
) -> Result<(), NoMemory>
    requires at { at < length files.old.storages }
    requires part { IsOfMessage part }
    requires assigned { IsAssigned names.now }
    requires known { Known (names_in names.now) (tree.names_in (tree_of B.bytes message.now)) }
    requires parts { HasFewParts (tree_of B.bytes message.now) }
    ensures { OnOk result (Adds files.old files.new at (plain.list_files (names_in names.now) (plain.head_of (is_top part) (length (tree.recipients_of (tree_of B.bytes message.now))) (length (tree.attachments_of (tree_of B.bytes message.now)))) (tree.props_of (tree_of B.bytes message.now)) None)) }
{
    let head = Head {
        part,
        recipients: message.recipients.len() as u32,
        attachments: message.attachments.len() as u32,
    };
    add_props(alloc, files, at, head, &message.props, None, names)
}

/// Adds a message behind what is in a storage: its list, its recipients and its attachments.
#[cycle(adding)]
fn add_message<'t, B: Blob>(
    alloc: Global,
    files: &mut FileList<'t, B>,
    at: usize,
    part: Part,
    message: &'t Message<B>,
    names: &NameMap,
) -> Result<(), NoMemory>
    requires at { at < length files.old.storages }
    requires part { IsOfMessage part }
    requires assigned { IsAssigned names.now }
    requires known { Known (names_in names.now) (tree.names_in (tree_of B.bytes message.now)) }
    requires parts { HasFewParts (tree_of B.bytes message.now) }
    requires stores { HasStores (tree_of B.bytes message.now) }
    ensures { OnOk result (Adds files.old files.new at (plain.message_files (names_in names.now) (is_top part) (tree_of B.bytes message.now))) }
{
    grown_lists_are_trees();
    add_list(alloc, files, at, part, message, names)?;
    add_recipients(alloc, files, at, &message.recipients, names)?;
    let attachments = &message.attachments;
    for k in 0..attachments.len() {
        add_attachment(alloc, files, at, k as u32, attachments.get(k), names)?;
    }
    Ok(())
}

/// Adds the storage of an attachment.
#[cycle(adding)]
fn add_attachment<'t, B: Blob>(
    alloc: Global,
    files: &mut FileList<'t, B>,
    at: usize,
    number: u32,
    attachment: &'t Attachment<B>,
    names: &NameMap,
) -> Result<(), NoMemory>
    requires at { at < length files.old.storages }
    requires assigned { IsAssigned names.now }
    requires known { Known (names_in names.now) (tree.names_at (attached_of B.bytes attachment.now)) }
    requires parts { BodyHasFewParts (attached_of B.bytes attachment.now).1 }
    requires stores { BodyHasStores (attached_of B.bytes attachment.now).1 }
    ensures { OnOk result (Adds files.old files.new at (attachment_tree (names_in names.now) number (attached_of B.bytes attachment.now))) }
{
    let storage = files.add_numbered_storage(at, ATTACHMENT_UNITS, number)?;
    add_attached(alloc, files, storage, attachment, names)
}

/// Adds the list of an attachment and what it holds.
#[cycle(adding)]
fn add_attached<'t, B: Blob>(
    alloc: Global,
    files: &mut FileList<'t, B>,
    at: usize,
    attachment: &'t Attachment<B>,
    names: &NameMap,
) -> Result<(), NoMemory>
    requires at { at < length files.old.storages }
    requires assigned { IsAssigned names.now }
    requires known { Known (names_in names.now) (tree.names_at (attached_of B.bytes attachment.now)) }
    requires parts { BodyHasFewParts (attached_of B.bytes attachment.now).1 }
    requires stores { BodyHasStores (attached_of B.bytes attachment.now).1 }
    ensures { OnOk result (Adds files.old files.new at (inside_attachment (names_in names.now) (attached_of B.bytes attachment.now))) }
{
    grown_lists_are_trees();
    let head = small_head(Part::Attachment);
    let word = word_of(&attachment.body);
    add_props(alloc, files, at, head, &attachment.props, word, names)?;
    add_body(alloc, files, at, &attachment.body, names)
}

/// Adds the storage of what an attachment holds.
#[cycle(adding)]
fn add_body<'t, B: Blob>(
    alloc: Global,
    files: &mut FileList<'t, B>,
    at: usize,
    body: &'t Body<B>,
    names: &NameMap,
) -> Result<(), NoMemory>
    requires at { at < length files.old.storages }
    requires assigned { IsAssigned names.now }
    requires known { Known (names_in names.now) (tree.names_in_body (body_of B.bytes body.now)) }
    requires parts { BodyHasFewParts (body_of B.bytes body.now) }
    requires stores { BodyHasStores (body_of B.bytes body.now) }
    ensures { OnOk result (Adds files.old files.new at (plain.body_files (names_in names.now) (body_of B.bytes body.now))) }
{
    match body {
        Body::Plain => Ok(()),
        Body::Message(inner) => {
            let storage = files.add_storage(at, OBJECT)?;
            add_message(alloc, files, storage, Part::Embedded, inner, names)
        }
        Body::Store(store) => {
            let name = object_units(alloc)?;
            let storage = files.add_named_storage(at, &name, store.class())?;
            add_store(files, storage, store)
        }
    }
}

/// The storages and streams that a message is written as: the name map, and the message at the top. NoMemory says that
/// memory ran out. [MS-OXMSG 2.1 to 2.4]
pub fn files_of<'t, B: Blob>(
    alloc: Global,
    tree: &'t Tree<B>,
    names: &NameSet,
) -> Result<FileList<'t, B>, NoMemory>
    requires names { names.now ≡ names_of (plain_of tree.now) }
    requires few { length names.now ≤ 32000 }
    requires parts { HasFewParts (plain_of tree.now) }
    ensures { IfOk result (λ list. list ≡ record { root_class = MESSAGE_CLASS; storages = grown ([] ∷ []) 0 (plain.files_of (plain_of tree.now)) }) }
{
    grown_lists_are_trees();
    let map = NameMap::assign(alloc, names)?;
    let mut files = FileList::new(alloc)?;
    map.add_streams(alloc, &mut files)?;
    add_message(alloc, &mut files, 0, Part::Top, tree.top(), &map)?;
    Ok(files)
}
