//! Names of properties in a list.
ghost use Rattle.std.specs.Prelude.{◌≤◌, IfOk, IfErr, nat_le};
ghost use Rattle.tnef_model.specs.TnefLists as lists;
ghost use Rattle.carrier_model.specs.Grammar as forms;
ghost use Rattle.carrier_model.specs.Keys.{IsName, IsKey};
ghost use Rattle.prop_names.specs.Meaning.{name_of, key_of};
ghost use Rattle.tnef_props.specs.Steps.{Takes, Refuses};

use crate::fields::{raw, skip_padding, word};
use crate::rest::Rest;
use crate::texts::without_null;
use carrier_io::{Fault, Reason, Stop, Units};
use prop_names::{Guid, Key, Name, units_of_bytes};
use std::alloc::Global;

/// The size of a name's text.
#[tactic(auto, unfolding(tnef_model::specs::TnefLists::name_size))]
fn name_size<'a>(from: Rest<'a>) -> Result<(u32, Rest<'a>), Stop>
    ensures found { IfOk result (λ x. Takes lists.name_size from.entry x.0 x.1) }
    ensures small { IfOk result (λ x. x.0 ≤ 512) }
    ensures fault { IfErr result (Refuses lists.name_size from.entry) }
{
    let (n, rest) = word(from)?;
    if n % 2 != 0 || n > 512 {
        return Err(Stop::Fault(Fault {
            reason: Reason::BadNameSize,
            offset: from.place,
        }));
    }
    Ok((n, rest))
}

/// The units of a name's text without its null, and the size before them.
#[tactic(auto, unfolding(tnef_model::specs::TnefLists::name_units))]
fn name_units<'a>(alloc: Global, from: Rest<'a>) -> Result<(Units, u32, Rest<'a>), Stop>
    ensures found { IfOk result (λ x. Takes lists.name_units from.entry (x.1, x.0) x.2) }
    ensures fault { IfErr result (Refuses lists.name_units from.entry) }
{
    let (n, rest) = name_size(from)?;
    let (bytes, rest) = raw(rest, n as usize)?;
    let units = units_of_bytes(alloc, without_null(bytes, 2))?;
    Ok((units, n, rest))
}

/// The text of a name in a property set.
#[tactic(auto, unfolding(tnef_model::specs::TnefLists::name_text))]
fn name_text<'a>(alloc: Global, from: Rest<'a>, set: Guid) -> Result<(Name, Rest<'a>), Stop>
    ensures found { IfOk result (λ x. Takes (lists.name_text set.0) from.entry (name_of x.0) x.1) }
    ensures name { IfOk result (λ x. IsName (name_of x.0)) }
    ensures fault { IfErr result (Refuses (lists.name_text set.0) from.entry) }
{
    let (units, n, rest) = name_units(alloc, from)?;
    if units.len() > 255 {
        return Err(Stop::Fault(Fault {
            reason: Reason::BadNameSize,
            offset: from.place,
        }));
    }
    let rest = skip_padding(rest, n as usize)?;
    Ok((Name::of_text(alloc, set, units)?, rest))
}

/// The number of a name in a property set.
#[tactic(auto, unfolding(tnef_model::specs::TnefLists::name_number))]
fn name_number<'a>(from: Rest<'a>, set: Guid) -> Result<(Name, Rest<'a>), Stop>
    ensures found { IfOk result (λ x. Takes (lists.name_number set.0) from.entry (name_of x.0) x.1) }
    ensures name { IfOk result (λ x. IsName (name_of x.0)) }
    ensures fault { IfErr result (Refuses (lists.name_number set.0) from.entry) }
{
    let (number, rest) = word(from)?;
    Ok((Name::Number { set, number }, rest))
}

/// Which of two forms a name has: 0 is a number, 1 a text.
fn name_kind<'a>(from: Rest<'a>) -> Result<(u32, Rest<'a>), Stop>
    ensures found { IfOk result (λ x. Takes (forms.such lists.word (λ k. nat_le k 1) 72) from.entry x.0 x.1) }
    ensures fault { IfErr result (Refuses (forms.such lists.word (λ k. nat_le k 1) 72) from.entry) }
{
    let (kind, rest) = word(from)?;
    if kind > 1 {
        return Err(Stop::Fault(Fault {
            reason: Reason::BadNameKind,
            offset: from.place,
        }));
    }
    Ok((kind, rest))
}

/// A GUID.
pub fn guid<'a>(from: Rest<'a>) -> Result<(Guid, Rest<'a>), Stop>
    ensures found { IfOk result (λ x. Takes (lists.raw 16) from.entry x.0.0 x.1) }
    ensures fault { IfErr result (Refuses (lists.raw 16) from.entry) }
{
    let (bytes, rest) = raw(from, 16)?;
    let mut set = [0; 16];
    set.copy_from_slice(bytes);
    Ok((Guid(set), rest))
}

/// A property set's GUID, and a number or a text in it.
#[tactic(auto, unfolding(tnef_model::specs::TnefLists::name))]
#[inline(never)]
fn name<'a>(alloc: Global, from: Rest<'a>) -> Result<(Name, Rest<'a>), Stop>
    ensures found { IfOk result (λ x. Takes lists.name from.entry (name_of x.0) x.1) }
    ensures name { IfOk result (λ x. IsName (name_of x.0)) }
    ensures fault { IfErr result (Refuses lists.name from.entry) }
{
    let (set, rest) = guid(from)?;
    let (kind, rest) = name_kind(rest)?;
    if kind == 0 {
        name_number(rest, set)
    } else {
        name_text(alloc, rest, set)
    }
}

/// The key of an id: the id itself, or from 8000 on the name that follows.
#[tactic(auto, unfolding(tnef_model::specs::TnefLists::key))]
#[inline(always)]
pub fn key<'a>(alloc: Global, from: Rest<'a>, id: u16) -> Result<(Key, Rest<'a>), Stop>
    ensures found { IfOk result (λ x. Takes (lists.key id) from.entry (key_of x.0) x.1) }
    ensures key { IfOk result (λ x. IsKey (key_of x.0)) }
    ensures fault { IfErr result (Refuses (lists.key id) from.entry) }
{
    if id < 0x8000 {
        return Ok((Key::Id(id), from));
    }
    let (name, rest) = name(alloc, from)?;
    Ok((Key::Named(name), rest))
}
