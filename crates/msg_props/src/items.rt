//! What stands in a list.
ghost use Rattle.std.specs.Prelude.{◌≡◌, ◌||◌, ◌==◌, IfOk};
ghost use Rattle.carrier_io.specs.Reads.{Gives};
ghost use Rattle.carrier_model.specs.Keys.{IsKey};
ghost use Rattle.carrier_model.specs.Kinds.{OBJECT};
ghost use Rattle.cfb_directory.specs.Found.{IsThere};
ghost use Rattle.msg_model.specs.MsgProps as lists;
ghost use Rattle.msg_props.specs.Entries.{entry_of, streams_in};
ghost use Rattle.msg_props.specs.Items.{item_of};
ghost use Rattle.msg_props.specs.Sections.{part_of};
ghost use Rattle.prop_names.specs.Meaning.{key_of};

use crate::entries::Entry;
use crate::stored::value;
use carrier_io::{Fault, Reason, Stop};
use cfb_directory::{Files, StorageId};
use cfb_sectors::StreamView;
use msg_nameid::NameMap;
use prop_names::Key;
use prop_values::{Part, Prop, kind_of};
use std::alloc::Global;

/// What an entry gives: a property, something that is passed over, or the object of an attachment, which is a message or
/// a store. [MS-OXMSG 2.4]
#[derive(Drop)]
pub enum Item<'a> {
    Kept(Prop<StreamView<'a>>),
    Passed,
    Embedding,
}

/// The key of an entry: its id, or from 8000 on the name for which it stands; UnmappedId at an entry whose id stands for
/// none. [MS-OXMSG 2.2.3]
#[tactic(auto, unfolding(msg_model::specs::MsgProps::key_of))]
fn key(alloc: Global, names: &NameMap, entry: &Entry) -> Result<Key, Stop>
    ensures key { Gives key_of result (lists.key_of names.now (entry_of entry.now)) }
    ensures valid { IfOk result (λ k. IsKey (key_of k)) }
{
    let id = entry.id();
    if id < 0x8000 {
        return Ok(Key::Id(id));
    }
    match names.name_of(id) {
        Some(name) => Ok(Key::Named(name.copy(alloc)?)),
        None => Err(Stop::Fault(Fault {
            reason: Reason::UnmappedId,
            offset: entry.place,
        })),
    }
}

/// The property of an entry. Faults are UnknownType and UnmappedId at the entry, and those of its value.
/// [MS-OXMSG 2.4.2]
#[tactic(auto, unfolding(msg_model::specs::MsgProps::prop_of), using(crate::proofs::KindNumbers::is_kind_of, crate::proofs::KindNumbers::is_no_kind))]
fn prop<'a>(
    alloc: Global,
    files: &Files<'a>,
    at: StorageId,
    names: &NameMap,
    entry: &Entry,
) -> Result<Prop<StreamView<'a>>, Stop>
    requires { IsThere files.now at }
    ensures { Gives (λ p. p) result (lists.prop_of names.now (streams_in files.now at) (entry_of entry.now)) }
{
    match kind_of(entry.kind()) {
        Some(kind) => {
            let key = key(alloc, names, entry)?;
            let value = value(alloc, files, at, entry, kind)?;
            Ok(Prop { key, value })
        }
        None => Err(Stop::Fault(Fault {
            reason: Reason::UnknownType,
            offset: entry.place,
        })),
    }
}

fn is_of_attachment(part: Part) -> bool
    ensures { result ≡ lists.is_attachment (part_of part) }
{
    match part {
        Part::Attachment => true,
        _ => false,
    }
}

/// Whether values of a kind are passed over: Object, Unspecified, Null, ServerId, Restriction and RuleAction.
/// [MS-OXCDATA 2.11.1]
fn is_passed(kind: u16) -> bool
    ensures { result ≡ ((kind == OBJECT) || lists.is_passed_kind kind) }
{
    match kind {
        0x000D => true,
        0x0000 => true,
        0x0001 => true,
        0x00FB => true,
        0x00FD => true,
        0x00FE => true,
        _ => false,
    }
}

/// What an entry gives, whatever stands before it. [MS-OXMSG 2.4.2]
#[tactic(auto, unfolding(msg_model::specs::MsgProps::item_of))]
pub fn read_item<'a>(
    alloc: Global,
    files: &Files<'a>,
    at: StorageId,
    part: Part,
    names: &NameMap,
    entry: &Entry,
) -> Result<Item<'a>, Stop>
    requires { IsThere files.now at }
    ensures { Gives (item_of (entry_of entry.now)) result (lists.item_of (part_of part) names.now (streams_in files.now at) (entry_of entry.now)) }
{
    if is_of_attachment(part) && entry.tag == 0x3701_000D {
        return Ok(Item::Embedding);
    }
    if is_passed(entry.kind()) {
        return Ok(Item::Passed);
    }
    Ok(Item::Kept(prop(alloc, files, at, names, entry)?))
}
