//! Property lists.
ghost use Rattle.std.specs.Prelude.{◌≡◌, ◌+◌, ◌≤◌, ◌∷◌, ◌++◌, ℕ, List, Bool, [], length, drop, filter_map, IfOk, IfErr, OnOk, OnErr};
ghost use Rattle.std.specs.Option.{option_map};
ghost use Rattle.tnef_model.specs.TnefLists as lists;
ghost use Rattle.carrier_io.specs.Reads.{OnFault, FaultOnly};
ghost use Rattle.carrier_io.specs.Reasons.{fault_of};
ghost use Rattle.carrier_model.specs.Grammar.{Means};
ghost use Rattle.carrier_model.specs.Reasons.{DUPLICATE_LIST_PROPERTY};
ghost use Rattle.tnef_props.specs.ReadLists.{PassedAtFront, IsListOf, is_attachment};
ghost use Rattle.tnef_props.specs.Scans.{IsEmpty, IsWith, IsSecondObject, DoublesFail, draft_seen};
ghost use Rattle.prop_values.specs.Arrivals.{AreDifferent};
ghost use Rattle.tnef_props.specs.Meaning.{item_of, object_of};
ghost use Rattle.tnef_props.specs.Steps.{Takes, Refuses};

use crate::fields::word;
use crate::items::{Item, any_item};
use crate::object::{Object, ReadList};
use crate::rest::Rest;
use carrier_io::{Blob, Fault, Holds, Passed, PassedList, Reason, Stop};
use prop_values::{Arrivals, Part, Props, SettleEnd};
use std::alloc::Global;

/// The bytes of the shortest property: a tag, and a value.
const LEAST_PROPERTY: usize = 8;

/// What was read of a list, before it was looked at for doubles: the properties as they came, each marked by the offset
/// of its tag, and the Object of an attachment.
#[derive(Drop)]
struct Draft<'a, C: Blob> {
    arrivals: Arrivals<C>,
    object: Option<Object<'a>>,
}

/// The fault of a property or an Object that is there already.
fn double_at(offset: u64) -> Fault
    ensures { fault_of result ≡ (DUPLICATE_LIST_PROPERTY, offset) }
{
    Fault {
        reason: Reason::DuplicateListProperty,
        offset,
    }
}

impl<'a, C: Holds<&'a [u8]>> Draft<'a, C> {
    fn new(alloc: Global) -> Draft<'a, C>
        ensures { IsEmpty result }
    {
        Draft {
            arrivals: Arrivals::new(alloc),
            object: None,
        }
    }

    /// Adds the item whose tag is at the offset; its bytes become blobs here. A second Object is a fault there.
    fn add(
        &mut self,
        alloc: Global,
        item: Item<'a>,
        offset: u64,
        passed: &mut PassedList,
    ) -> Result<(), Stop>
        ensures ok { OnOk result (IsWith (item_of item.entry) offset self.old self.new) }
        ensures passed { OnOk result (passed.new ≡ passed.old ++ filter_map lists.passed_in (item_of item.entry ∷ [])) }
        ensures fault { IfErr result (OnFault (λ g. (g ≡ (DUPLICATE_LIST_PROPERTY, offset)) × IsSecondObject (item_of item.entry) self.old)) }
        ensures same { OnErr result (self.new.arrivals ≡ self.old.arrivals) }
        ensures kept { OnErr result (passed.new ≡ passed.old) }
    {
        match item {
            Item::Kept(prop) => {
                self.arrivals.push(prop.into_held(alloc)?, offset)?;
            }
            Item::Passed { tag, offset } => {
                passed.push(Passed {
                    attribute: false,
                    what: tag,
                    offset,
                })?;
            }
            Item::Carried(found) => {
                if self.object.is_some() {
                    return Err(Stop::Fault(double_at(offset)));
                }
                self.object = Some(found);
            }
        }
        Ok(())
    }
}

/// Reads the items of a list into an empty draft. Properties that are there twice are left for later. What is passed
/// over is added to `passed`, after a refusal a part of it.
fn scan<'a, C: Holds<&'a [u8]>>(
    alloc: Global,
    from: Rest<'a>,
    in_attachment: bool,
    draft: &mut Draft<'a, C>,
    passed: &mut PassedList,
) -> Result<Rest<'a>, Stop>
    requires { IsEmpty draft.old }
    ensures found { IfOk result (λ rest. (more : List (Bool × ℕ × ℕ)) × (AreDifferent draft.new.arrivals.props → Takes (lists.prop_list in_attachment) from.entry (draft_seen draft.new more) rest) × (passed.new ≡ passed.old ++ more)) }
    ensures fault { IfErr result (λ stop. AreDifferent draft.new.arrivals.props → Refuses (lists.prop_list in_attachment) from.entry stop) }
    ensures double { DoublesFail in_attachment from.entry draft.new.arrivals }
    ensures kept { PassedAtFront in_attachment from.entry.place from.entry.bytes.now passed.old passed.new }
{
    let (count, mut rest) = word(from)?;
    let most = rest.bytes.len() / LEAST_PROPERTY;
    draft.arrivals.make_room(most.min(count as usize));
    for _k in 0..count {
        let (item, after) = any_item(alloc, rest, in_attachment)?;
        draft.add(alloc, item, rest.place, passed)?;
        rest = after;
    }
    Ok(rest)
}

/// What a list has, as far as it was read.
type Gathered<'a, C> = (Props<C>, Option<Object<'a>>, Rest<'a>);

/// A list. The first property that is there twice comes before whatever stopped the scan behind it.
fn gather<'a, C: Holds<&'a [u8]>>(
    alloc: Global,
    from: Rest<'a>,
    in_attachment: bool,
    passed: &mut PassedList,
) -> Result<Gathered<'a, C>, Stop>
    ensures found { IfOk result (λ x. (more : List (Bool × ℕ × ℕ)) × Takes (lists.prop_list in_attachment) from.entry (record { props = x.0; object = option_map object_of x.1; passed = more }) x.2 × (passed.new ≡ passed.old ++ more)) }
    ensures fault { IfErr result (Refuses (lists.prop_list in_attachment) from.entry) }
    ensures kept { OnErr result (PassedAtFront in_attachment from.entry.place from.entry.bytes.now passed.old passed.new) }
{
    let mut draft = Draft::new(alloc);
    let scanned = scan(alloc, from, in_attachment, &mut draft, passed);
    let Draft { arrivals, object } = draft;
    match arrivals.settle() {
        Ok(props) => Ok((props, object, scanned?)),
        Err(SettleEnd::Duplicate(offset)) => Err(Stop::Fault(double_at(offset))),
        Err(SettleEnd::NoMemory) => Err(Stop::NoMemory),
    }
}

fn is_of_attachment(part: Part) -> bool
    ensures { result ≡ is_attachment part }
{
    match part {
        Part::Attachment => true,
        _ => false,
    }
}

/// Reads the list at the place `from` of the bytes, whose first byte is at the offset `at` of the input. A fault is
/// the first of the list, by its offset in the input. What is passed over is added to `passed`; after a refusal that
/// is what the items read so far pass over, and nothing that was there is lost. The values are held in any blob that
/// slices of the input become. [MS-OXTNEF 2.1.3.4]
pub fn read_list<'a, C: Holds<&'a [u8]>>(
    alloc: Global,
    bytes: &'a [u8],
    from: usize,
    at: u64,
    part: Part,
    passed: &mut PassedList,
) -> Result<ReadList<'a, C>, Stop>
    requires from { from ≤ length bytes.now }
    requires room { at + length bytes.now ≤ 0x1000_0000 }
    ensures found { IfOk result (IsListOf (is_attachment part) bytes.entry.now from at passed.old passed.new) }
    ensures fault { IfErr result (OnFault (FaultOnly (Means (lists.prop_list (is_attachment part)) (at + from) (drop from bytes.entry.now)) ((lists.prop_list (is_attachment part)).fails (at + from) (drop from bytes.entry.now)))) }
    ensures kept { OnErr result (PassedAtFront (is_attachment part) (at + from) (drop from bytes.entry.now) passed.old passed.new) }
{
    let (_, list) = bytes.split_at(from);
    let start = Rest {
        bytes: list,
        place: at + from as u64,
    };
    let in_attachment = is_of_attachment(part);
    let (props, object, rest) = gather(alloc, start, in_attachment, passed)?;
    Ok(ReadList {
        props,
        object,
        end: bytes.len() - rest.bytes.len(),
    })
}
