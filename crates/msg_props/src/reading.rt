//! Property lists, read.
ghost use Rattle.std.specs.Prelude.{◌≡◌, ◌≤◌, ◌++◌, ◌∷◌, ℕ, Bool, true, List, [], length, filter_map, is_some, IfOk, IfErr, OnOk, OnErr};
ghost use Rattle.carrier_io.specs.Reads.{Gives, Fails, OnFault};
ghost use Rattle.carrier_io.specs.Reasons.{fault_of};
ghost use Rattle.carrier_model.specs.Lookups.{size_place_at, stream_named};
ghost use Rattle.carrier_model.specs.Reasons.{BAD_PROP_STREAM, DUPLICATE_PROPERTY};
ghost use Rattle.carrier_model.specs.Stores.{PROPERTIES as plain_properties};
ghost use Rattle.cfb_directory.specs.Found.{IsThere, storage_seen};
ghost use Rattle.cfb_sectors.specs.Seen.{bytes_of, stream as stream_seen};
ghost use Rattle.msg_model.specs.MsgMessage.{list_in};
ghost use Rattle.msg_model.specs.MsgProps as lists;
ghost use Rattle.msg_props.specs.Entries.{entry_of, streams_in};
ghost use Rattle.msg_props.specs.Items.{item_of};
ghost use Rattle.msg_props.specs.Scans.{items_of, IsEmpty, IsWith, IsSecond, IsScanned, DoublesFail};
ghost use Rattle.msg_props.specs.Sections.{PassedAtFront, PassedOfFirst, part_of, section_seen, IsSectionOf};
ghost use Rattle.prop_values.specs.Arrivals.{AreDifferent};

use crate::entries::Entry;
use crate::items::{Item, read_item};
use crate::lists::{ENTRY, PROPERTIES, head_size};
use crate::tags::Tags;
use carrier_io::{Blob, Fault, Passed, PassedList, Reason, Stop};
use cfb_directory::{Files, StorageId};
use cfb_sectors::StreamView;
use msg_nameid::NameMap;
use prop_values::{Arrivals, Part, Props, SettleEnd};
use std::alloc::Global;

/// The property list of a storage, and where the entry 3701000D of an attachment lies in the file, if it has one.
/// [MS-OXMSG 2.4]
#[derive(Drop)]
pub struct Section<'a> {
    pub props: Props<StreamView<'a>>,
    pub embedded: Option<u64>,
}

/// What was read of a list, before it was looked at for doubles: the properties as they came, each marked by the place of
/// its entry; the place of the entry of an attachment's object; and the tags of the properties, so that no stream is read
/// again and again.
#[derive(Drop)]
struct Draft<'a> {
    arrivals: Arrivals<StreamView<'a>>,
    embedded: Option<u64>,
    tags: Tags,
}

/// The fault of an entry whose property, or object, is there already.
fn double_at(offset: u64) -> Fault
    ensures { fault_of result ≡ (DUPLICATE_PROPERTY, offset) }
{
    Fault {
        reason: Reason::DuplicateProperty,
        offset,
    }
}

impl<'a> Draft<'a> {
    fn new(alloc: Global) -> Draft<'a>
        ensures { IsEmpty result }
    {
        Draft {
            arrivals: Arrivals::new(alloc),
            embedded: None,
            tags: Tags::new(alloc),
        }
    }

    /// Adds what an entry gave. A second property of a tag, or a second object, is a fault there.
    fn add(&mut self, item: Item<'a>, entry: &Entry, passed: &mut PassedList) -> Result<(), Stop>
        ensures ok { OnOk result (IsWith (item_of (entry_of entry.now) item.entry) (entry_of entry.now) self.old self.new) }
        ensures passed { OnOk result (passed.new ≡ passed.old ++ filter_map lists.passed_in (item_of (entry_of entry.now) item.entry ∷ [])) }
        ensures fault { IfErr result (OnFault (λ g. (g ≡ (DUPLICATE_PROPERTY, entry.now.place)) × IsSecond (item_of (entry_of entry.now) item.entry) (entry_of entry.now) self.old)) }
        ensures same { OnErr result (self.new.arrivals ≡ self.old.arrivals) }
        ensures kept { OnErr result (passed.new ≡ passed.old) }
    {
        match item {
            Item::Kept(prop) => {
                if !self.tags.insert(entry.tag)? {
                    return Err(Stop::Fault(double_at(entry.place)));
                }
                self.arrivals.push(prop, entry.place)?;
            }
            Item::Passed => {
                passed.push(Passed {
                    attribute: false,
                    what: entry.tag,
                    offset: entry.place,
                })?;
            }
            Item::Embedding => {
                if self.embedded.is_some() {
                    return Err(Stop::Fault(double_at(entry.place)));
                }
                self.embedded = Some(entry.place);
            }
        }
        Ok(())
    }
}

/// Reads the entries of a list into an empty draft. Properties that are there twice are left for later, but for those of
/// one tag. What is passed over is added to `passed`.
fn scan<'a>(
    alloc: Global,
    files: &Files<'a>,
    at: StorageId,
    part: Part,
    names: &NameMap,
    view: &StreamView<'a>,
    draft: &mut Draft<'a>,
    passed: &mut PassedList,
) -> Result<(), Stop>
    requires there { IsThere files.now at }
    requires headed { lists.head_size (part_of part) ≤ length (bytes_of view.now) }
    requires empty { IsEmpty draft.old }
    ensures found { OnOk result (IsScanned (items_of (part_of part) names.now (streams_in files.now at) (lists.prop_entries (part_of part) (stream_seen view.now))) draft.new passed.old passed.new) }
    ensures fault { IfErr result (λ stop. AreDifferent draft.new.arrivals.props → Fails stop (items_of (part_of part) names.now (streams_in files.now at) (lists.prop_entries (part_of part) (stream_seen view.now)))) }
    ensures double { DoublesFail (items_of (part_of part) names.now (streams_in files.now at) (lists.prop_entries (part_of part) (stream_seen view.now))) draft.new.arrivals }
    ensures kept { PassedOfFirst (part_of part) (lists.prop_entries (part_of part) (stream_seen view.now)) passed.old passed.new }
{
    let head = head_size(part);
    for k in 0..(view.len() - head) / ENTRY {
        let entry = Entry::read(view, head + ENTRY * k);
        let item = read_item(alloc, files, at, part, names, &entry)?;
        draft.add(item, &entry, passed)?;
    }
    Ok(())
}

/// A list whose head is there. The first property that is there twice comes before whatever stopped the scan behind it.
fn gather<'a>(
    alloc: Global,
    files: &Files<'a>,
    at: StorageId,
    part: Part,
    names: &NameMap,
    view: &StreamView<'a>,
    passed: &mut PassedList,
) -> Result<Section<'a>, Stop>
    requires there { IsThere files.now at }
    requires headed { lists.head_size (part_of part) ≤ length (bytes_of view.now) }
    ensures found { IfOk result (IsSectionOf (items_of (part_of part) names.now (streams_in files.now at) (lists.prop_entries (part_of part) (stream_seen view.now))) passed.old passed.new) }
    ensures fault { IfErr result (λ stop. Fails stop (items_of (part_of part) names.now (streams_in files.now at) (lists.prop_entries (part_of part) (stream_seen view.now)))) }
    ensures kept { PassedOfFirst (part_of part) (lists.prop_entries (part_of part) (stream_seen view.now)) passed.old passed.new }
{
    let mut draft = Draft::new(alloc);
    let scanned = scan(alloc, files, at, part, names, view, &mut draft, passed);
    let Draft {
        arrivals,
        embedded,
        tags: _,
    } = draft;
    match arrivals.settle() {
        Ok(props) => {
            scanned?;
            Ok(Section { props, embedded })
        }
        Err(SettleEnd::Duplicate(offset)) => Err(Stop::Fault(double_at(offset))),
        Err(SettleEnd::NoMemory) => Err(Stop::NoMemory),
    }
}

/// The fault of a list that is shorter than its head: BadPropStream, at its size in the directory.
fn short_list(files: &Files<'_>, at: StorageId) -> Fault
    requires there { IsThere files.now at }
    requires some { is_some (streams_in files.now at plain_properties) ≡ true }
    ensures { fault_of result ≡ (BAD_PROP_STREAM, size_place_at (streams_in files.now at plain_properties)) }
{
    match files.size_offset(at, PROPERTIES) {
        Some(offset) => Fault {
            reason: Reason::BadPropStream,
            offset,
        },
        None => unreachable!(),
    }
}

/// Reads the property list of a storage: of the top message, an embedded message, a recipient or an attachment. What has no
/// place in a tree is added to `passed`; after a refusal that is what some first entries pass over. A fault is the first:
/// MissingProperties at the directory entry of the storage, BadPropStream at the size of the stream, and entry by entry
/// UnknownType, UnmappedId, BadElement, MissingStream and DuplicateProperty. Values stay in the input. [MS-OXMSG 2.4]
pub fn read_props<'a>(
    alloc: Global,
    files: &Files<'a>,
    at: StorageId,
    part: Part,
    names: &NameMap,
    passed: &mut PassedList,
) -> Result<Section<'a>, Stop>
    requires { IsThere files.now at }
    ensures answer { Gives (section_seen passed.old passed.new) result (list_in (part_of part) names.now (storage_seen files.now at)) }
    ensures added { OnOk result ((more : List (Bool × ℕ × ℕ)) × (passed.new ≡ passed.old ++ more)) }
    ensures kept { PassedAtFront (part_of part) (stream_named (storage_seen files.now at).children plain_properties) passed.old passed.new }
{
    match files.stream(at, PROPERTIES) {
        Some(view) => {
            if view.len() < head_size(part) {
                return Err(Stop::Fault(short_list(files, at)));
            }
            gather(alloc, files, at, part, names, view, passed)
        }
        None => Err(Stop::Fault(Fault {
            reason: Reason::MissingProperties,
            offset: files.storage_offset(at),
        })),
    }
}
