//! Stores from JSON values. [MS-CFB 1.3 and 2.6]
ghost use Rattle.std.specs.Prelude.{◌≡◌, ◌<◌, ◌++◌, ◌∷◌, [], IfOk, OnOk, IfSome, IfNone, map};
ghost use Rattle.std.specs.List.{list_all};
ghost use Rattle.json_values.specs.View.{view};
ghost use Rattle.carrier_model.specs.FileTrees.{sorted};
ghost use Rattle.json_model.specs.StoreForms as plain;
ghost use Rattle.msg_tree.specs.Gathering.{gathered};
ghost use Rattle.msg_tree.specs.StoreMeaning.{store_of};
ghost use Rattle.tree_from_json.specs.Ends.{Reads};
ghost use Rattle.tree_from_json.specs.Entries.{placed_of, members_at, member_of, behind, tree_at};

use crate::entries::{Content, Placed};
use crate::read_digits::read_guid;
use crate::read_ends::{JsonWhy, ReadEnd, fault_here, under};
use crate::read_entries::read_entries;
use crate::read_parts::{has_members, member};
use carrier_io::NoMemory;
use cfb_names::is_property_stream;
use json_values::Value;
use msg_tree::{Member, Members, Store};
use std::alloc::Global;
use std::collections::VecDeque;

/// The most storages that stand one below another.
const MOST_STORAGES: usize = 32;

/// Whether an entry is no storage that stands too deep, and no stream that makes the store a message.
#[tactic(auto, using(crate::proofs::Shortened::path_long))]
fn is_fit(entry: &Placed) -> bool
    ensures { result ≡ plain.is_fit (placed_of entry.now) }
{
    match entry.content {
        Content::Storage(_) => entry.level <= MOST_STORAGES,
        Content::Stream(_) => entry.level != 1 || !is_property_stream(entry.name.as_slice()),
    }
}

fn are_fit(entries: &[Placed]) -> bool
    ensures { result ≡ list_all plain.is_fit (map placed_of entries.now) }
{
    for entry in entries {
        if !is_fit(entry) {
            return false;
        }
    }
    true
}

/// Whether the path of an entry has more than so many names.
#[tactic(auto, using(crate::proofs::Shortened::placed_long))]
fn is_below(entry: &Placed, level: usize) -> bool
    ensures { result ≡ plain.is_below level (placed_of entry.now) }
{
    entry.level > level
}

/// Takes the first entry, if there is one and its path has more than so many names.
#[tactic(auto, using(crate::proofs::Shortened::level_below))]
fn next_below(entries: &mut VecDeque<Placed>, level: usize) -> Option<Placed>
    ensures taken { IfSome result (λ e. map placed_of entries.old.items ≡ placed_of e ∷ map placed_of entries.new.items) }
    ensures below { IfSome result (λ e. level < e.level) }
    ensures none { IfNone result (plain.front_below level (map placed_of entries.old.items) ≡ []) }
    ensures left { IfNone result (plain.behind_below level (map placed_of entries.old.items) ≡ map placed_of entries.new.items) }
{
    match entries.front() {
        Some(entry) if is_below(entry, level) => entries.pop_front(),
        _ => None,
    }
}

/// Takes the entries off the front that are in a storage whose path has so many names, and makes them its members.
#[cycle(building)]
fn take_members(
    alloc: Global,
    entries: &mut VecDeque<Placed>,
    level: usize,
) -> Result<Members<Vec<u8>>, NoMemory>
    ensures ok { IfOk result (λ m. gathered (λ b. b.items) m ≡ members_at level (plain.front_below level (map placed_of entries.old.items))) }
    ensures rest { OnOk result (map placed_of entries.new.items ≡ plain.behind_below level (map placed_of entries.old.items)) }
{
    let mut members = Members::new(alloc);
    while let Some(entry) = next_below(entries, level) {
        push_member(alloc, &mut members, entry, entries, level)?;
    }
    Ok(members)
}

/// Puts the member that an entry is behind others. What is in it is taken off the front of the entries behind it.
#[cycle(building)]
fn push_member(
    alloc: Global,
    members: &mut Members<Vec<u8>>,
    entry: Placed,
    entries: &mut VecDeque<Placed>,
    level: usize,
) -> Result<(), NoMemory>
    requires { level < entry.level }
    ensures ok { OnOk result (gathered (λ b. b.items) members.new ≡ gathered (λ b. b.items) members.old ++ member_of level (placed_of entry) (map placed_of entries.old.items) ∷ []) }
    ensures rest { OnOk result (map placed_of entries.new.items ≡ behind level (placed_of entry) (map placed_of entries.old.items)) }
{
    let Placed { name, content, .. } = entry;
    match content {
        Content::Storage(class) => {
            let inside = take_members(alloc, entries, level + 1)?.into_store(class.0)?;
            members.push(name.as_slice(), Member::Storage(inside))
        }
        Content::Stream(bytes) => members.push(name.as_slice(), Member::Stream(bytes)),
    }
}

/// The store of a class and of entries in turn.
fn built(alloc: Global, class: [u8; 16], entries: Vec<Placed>) -> Result<Store<Vec<u8>>, NoMemory>
    ensures { IfOk result (λ s. store_of (λ b. b.items) s ≡ record { class = class; members = sorted (tree_at 0 (plain.front_below 0 (map placed_of entries.items))) }) }
{
    let mut entries = VecDeque::from_vec(entries);
    take_members(alloc, &mut entries, 0)?.into_store(class)
}

/// A store: its class, and its members.
pub(crate) fn read_store(alloc: Global, value: &Value) -> Result<Store<Vec<u8>>, ReadEnd>
    ensures { Reads (store_of (λ b. b.items)) (plain.read_store (view value.now)) result }
{
    if !has_members(value, &["class", "members"]) {
        return Err(fault_here(alloc, JsonWhy::Form));
    }
    let class = member(alloc, value, "class")?;
    let class = under(read_guid(alloc, class), 0)?;
    let list = member(alloc, value, "members")?;
    let entries = under(read_entries(alloc, list), 1)?;
    if !are_fit(&entries) {
        return Err(fault_here(alloc, JsonWhy::Deep));
    }
    Ok(built(alloc, class.0, entries)?)
}
