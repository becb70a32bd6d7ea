//! What stands in a list.
ghost use Rattle.std.specs.Prelude.{◌≡◌, ◌%◌, ◌&&◌, IfOk, IfErr, MatchOption, nat_eq, true, false};
ghost use Rattle.tnef_model.specs.TnefLists as lists;
ghost use Rattle.prop_values.specs.Kinds.{kind_number};
ghost use Rattle.tnef_props.specs.Meaning.{item_of};
ghost use Rattle.tnef_props.specs.Steps.{Takes, Refuses};

use crate::fields::{one, sized, word};
use crate::names::key;
use crate::object::Object;
use crate::rest::Rest;
use crate::values::value;
use carrier_io::{Fault, Reason, Stop};
use prop_values::{Kind, Prop, kind_of};
use std::alloc::Global;

/// A tag, and the kind that it names; none for an Object.
#[tactic(auto, unfolding(tnef_model::specs::TnefLists::tag), using(crate::proofs::KindNumbers::is_kind_of, crate::proofs::KindNumbers::is_no_kind))]
fn tag<'a>(from: Rest<'a>) -> Result<(u32, Option<Kind>, Rest<'a>), Stop>
    ensures found { IfOk result (λ x. Takes lists.tag from.entry x.0 x.2) }
    ensures kind { IfOk result (λ x. MatchOption x.1 (nat_eq (x.0 % 0x10000) 0x000D ≡ true) (λ k. (nat_eq (x.0 % 0x10000) 0x000D ≡ false) × (kind_number k ≡ x.0 % 0x10000))) }
    ensures fault { IfErr result (Refuses lists.tag from.entry) }
{
    let (tag, rest) = word(from)?;
    let number = (tag % 0x10000) as u16;
    if number == 0x000D {
        return Ok((tag, None, rest));
    }
    match kind_of(number) {
        Some(kind) => Ok((tag, Some(kind), rest)),
        None => Err(Stop::Fault(Fault {
            reason: Reason::UnknownListType,
            offset: from.place,
        })),
    }
}

/// What stands in a list.
#[derive(Drop)]
pub enum Item<'a> {
    /// A property.
    Kept(Prop<&'a [u8]>),
    /// An Object that is passed over: its tag, and the place of the tag.
    Passed { tag: u32, offset: u64 },
    /// The Object of an attachment.
    Carried(Object<'a>),
}

/// Whether a tag is that of the Object of an attachment.
fn is_attached(in_attachment: bool, tag: u32) -> bool
    ensures { result ≡ (in_attachment && nat_eq tag 0x3701000D) }
{
    in_attachment && tag == 0x3701_000D
}

/// An Object behind its tag; that of an attachment has at least sixteen bytes.
#[tactic(auto, unfolding(tnef_model::specs::TnefLists::object))]
fn object<'a>(
    from: Rest<'a>,
    in_attachment: bool,
    offset: u64,
    tag: u32,
) -> Result<(Item<'a>, Rest<'a>), Stop>
    ensures found { IfOk result (λ x. Takes (lists.object in_attachment offset tag) from.entry (item_of x.0) x.1) }
    ensures fault { IfErr result (Refuses (lists.object in_attachment offset tag) from.entry) }
{
    let rest = one(from)?;
    if is_attached(in_attachment, tag) {
        let (object, rest) = sized(rest, false, 16)?;
        return Ok((Item::Carried(object), rest));
    }
    let (_, rest) = sized(rest, false, 0)?;
    Ok((Item::Passed { tag, offset }, rest))
}

/// A property behind its tag.
#[tactic(auto, unfolding(tnef_model::specs::TnefLists::property))]
fn prop<'a>(
    alloc: Global,
    from: Rest<'a>,
    id: u16,
    kind: Kind,
) -> Result<(Prop<&'a [u8]>, Rest<'a>), Stop>
    ensures found { IfOk result (λ x. Takes (lists.property id (kind_number kind)) from.entry x.0 x.1) }
    ensures fault { IfErr result (Refuses (lists.property id (kind_number kind)) from.entry) }
{
    let (key, rest) = key(alloc, from, id)?;
    let (value, rest) = value(alloc, rest, kind)?;
    Ok((Prop { key, value }, rest))
}

/// A property or an Object.
#[tactic(auto, unfolding(tnef_model::specs::TnefLists::described))]
fn described<'a>(
    alloc: Global,
    from: Rest<'a>,
    in_attachment: bool,
    offset: u64,
    tag: u32,
    kind: Option<Kind>,
) -> Result<(Item<'a>, Rest<'a>), Stop>
    requires { MatchOption kind (nat_eq (tag % 0x10000) 0x000D ≡ true) (λ k. (nat_eq (tag % 0x10000) 0x000D ≡ false) × (kind_number k ≡ tag % 0x10000)) }
    ensures found { IfOk result (λ x. Takes (lists.described in_attachment offset tag) from.entry (item_of x.0) x.1) }
    ensures fault { IfErr result (Refuses (lists.described in_attachment offset tag) from.entry) }
{
    let id = (tag / 0x10000) as u16;
    match kind {
        Some(kind) => {
            let (prop, rest) = prop(alloc, from, id, kind)?;
            Ok((Item::Kept(prop), rest))
        }
        None => {
            let (_, rest) = key(alloc, from, id)?;
            object(rest, in_attachment, offset, tag)
        }
    }
}

/// The next item, whatever stands before it.
#[tactic(auto, unfolding(tnef_model::specs::TnefLists::any_item))]
pub fn any_item<'a>(
    alloc: Global,
    from: Rest<'a>,
    in_attachment: bool,
) -> Result<(Item<'a>, Rest<'a>), Stop>
    ensures found { IfOk result (λ x. Takes (lists.any_item in_attachment) from.entry (item_of x.0) x.1) }
    ensures fault { IfErr result (Refuses (lists.any_item in_attachment) from.entry) }
{
    let (tag, kind, rest) = tag(from)?;
    described(alloc, rest, in_attachment, from.place, tag, kind)
}
