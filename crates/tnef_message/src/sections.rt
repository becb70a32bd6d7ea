//! What the attributes of one message, or of one attachment, have given so far.
ghost use Rattle.std.specs.Prelude.{◌≡◌, ◌==◌, ◌∷◌, [], ◌++◌, All, OnOk, IfOk, filter, length, ◌<◌};
ghost use Rattle.std.specs.Option.{option_to_list};
ghost use Rattle.std.specs.List.{list_any};
ghost use Rattle.tnef_model.specs.LegacyAttributes as plain;
ghost use Rattle.carrier_model.specs.Sorted.{with_element, with_elements};
ghost use Rattle.tnef_model.specs.TnefMessage.{joined};
ghost use Rattle.carrier_model.specs.Values.{prop_cmp};
ghost use Rattle.tnef_message.specs.Sections.{HasId, beside_if, stays};

use crate::held::Held;
use carrier_io::NoMemory;
use prop_names::Key;
use prop_values::{InsertEnd, Prop, Props};
use std::alloc::Global;
use std::mem;
use tnef_attributes::{Attribute, legacy_prop};

/// The id of the property that holds an attachment's data.
const ATTACHED_DATA: u16 = 0x3701;

/// What the attributes of one message, or of one attachment, have given so far.
#[derive(Drop)]
pub struct Section<'a> {
    /// The ids of the attributes. None is there twice, so there are never more than the table has.
    pub seen: Vec<u32>,
    /// The properties of the list.
    pub list: Props<Held<'a>>,
    /// The properties that the attributes stand for by themselves, in their order.
    pub derived: Vec<Prop<Held<'a>>>,
}

impl<'a> Section<'a> {
    /// A section before the first attribute.
    pub fn new(alloc: Global) -> Section<'a>
        ensures seen { result.seen.items ≡ [] }
        ensures list { result.list ≡ [] }
        ensures derived { result.derived.items ≡ [] }
    {
        Section {
            seen: Vec::new(alloc),
            list: Props::new(alloc),
            derived: Vec::new(alloc),
        }
    }

    /// Whether an attribute with the id is there.
    pub fn has(&self, id: u32) -> bool
        ensures { result ≡ list_any (λ n. n == id) self.now.seen.items }
    {
        self.seen.contains(&id)
    }

    /// Enters an attribute: its id, and the property that it stands for.
    pub fn enter(&mut self, attribute: &Attribute<'a>) -> Result<(), NoMemory>
        requires { length attribute.now.bytes.now < 268435456 }
        ensures seen { OnOk result (self.new.seen.items ≡ self.old.seen.items ++ attribute.now.id ∷ []) }
        ensures list { OnOk result (self.new.list ≡ self.old.list) }
        ensures derived { OnOk result (self.new.derived.items ≡ self.old.derived.items ++ option_to_list (plain.legacy_prop attribute.now.id attribute.now.bytes.now)) }
    {
        self.seen.push(attribute.id)?;
        if let Some(prop) = legacy_prop(attribute) {
            let alloc = *self.derived.allocator();
            self.derived.push(prop.into_held(alloc)?)?;
        }
        Ok(())
    }

    /// Puts a list in place of the one that is there.
    pub fn set_list(&mut self, list: Props<Held<'a>>)
        ensures list { self.new.list ≡ list.entry }
        ensures seen { self.new.seen.items ≡ self.old.seen.items }
        ensures derived { self.new.derived.items ≡ self.old.derived.items }
    {
        let _old = mem::replace(&mut self.list, list);
    }
}

/// Whether a derived property stays beside a list; a message or a store in an attachment stands for its data.
fn is_new(prop: &Prop<Held<'_>>, list: &Props<Held<'_>>, embeds: bool) -> bool
    requires { HasId prop.now }
    ensures { result ≡ stays embeds list.now prop.now }
{
    match &prop.key {
        Key::Id(id) => !list.has_id(*id) && !(embeds && *id == ATTACHED_DATA),
        Key::Named(_) => unreachable!(),
    }
}

/// The derived properties that stay beside the list.
fn beside<'a>(
    alloc: Global,
    derived: Vec<Prop<Held<'a>>>,
    list: &Props<Held<'a>>,
    embeds: bool,
) -> Result<Vec<Prop<Held<'a>>>, NoMemory>
    requires { All HasId derived.items }
    ensures { IfOk result (λ r. r.items ≡ filter (stays embeds list.now) derived.entry.items) }
{
    let mut kept = Vec::new(alloc);
    for prop in derived {
        if is_new(&prop, list, embeds) {
            kept.push(prop)?;
        }
    }
    Ok(kept)
}

/// Puts a property into its place, unless one with its key and kind is there.
fn add<'a>(props: &mut Props<Held<'a>>, prop: Prop<Held<'a>>) -> Result<(), NoMemory>
    ensures { OnOk result (props.new ≡ with_element prop_cmp props.old prop.entry) }
{
    match props.insert_sorted(prop) {
        Ok(()) => Ok(()),
        Err(InsertEnd::Duplicate(_)) => Ok(()),
        Err(InsertEnd::NoMemory) => Err(NoMemory),
    }
}

/// The list with the properties in their places.
fn with_all<'a>(
    mut list: Props<Held<'a>>,
    props: Vec<Prop<Held<'a>>>,
) -> Result<Props<Held<'a>>, NoMemory>
    ensures { IfOk result (λ r. r ≡ with_elements prop_cmp list.entry props.entry.items) }
{
    for prop in props {
        add(&mut list, prop)?;
    }
    Ok(list)
}

/// The list of a section, joined with the derived properties whose id it does not have. `embeds` says whether it is
/// that of an attachment with a message or a store.
pub fn join<'a>(
    alloc: Global,
    section: Section<'a>,
    embeds: bool,
) -> Result<Props<Held<'a>>, NoMemory>
    requires { All HasId section.derived.items }
    ensures { IfOk result (λ r. r ≡ joined section.entry.list (beside_if embeds section.entry.derived.items)) }
{
    let Section {
        seen: _,
        list,
        derived,
    } = section;
    let kept = beside(alloc, derived, &list, embeds)?;
    with_all(list, kept)
}
