//! Fields of a property list, one after another.
ghost use Rattle.std.specs.Prelude.{ℕ, List, IfOk, IfErr};
ghost use Rattle.tnef_model.specs.TnefLists as lists;
ghost use Rattle.carrier_model.specs.Bytes as octets;
ghost use Rattle.tnef_props.specs.Steps.{Takes, Refuses};

use crate::object::Object;
use crate::rest::Rest;
use carrier_io::{Fault, Reason, Stop, pad4, u32_at};

/// So many bytes.
#[inline(always)]
pub fn raw<'a>(from: Rest<'a>, n: usize) -> Result<(&'a [u8], Rest<'a>), Stop>
    ensures found { IfOk result (λ x. Takes (lists.raw n) from.entry x.0.now x.1) }
    ensures fault { IfErr result (Refuses (lists.raw n) from.entry) }
{
    if from.bytes.len() < n {
        return Err(Stop::Fault(Fault {
            reason: Reason::ListTruncated,
            offset: from.place,
        }));
    }
    let (front, back) = from.bytes.split_at(n);
    Ok((
        front,
        Rest {
            bytes: back,
            place: from.place + n as u64,
        },
    ))
}

/// A number of four bytes.
#[inline(always)]
pub fn word<'a>(from: Rest<'a>) -> Result<(u32, Rest<'a>), Stop>
    ensures found { IfOk result (λ x. Takes lists.word from.entry x.0 x.1) }
    ensures fault { IfErr result (Refuses lists.word from.entry) }
{
    let (bytes, rest) = raw(from, 4)?;
    Ok((u32_at(bytes, 0), rest))
}

/// Passes over what is missing to a multiple of four behind n bytes.
#[inline(always)]
pub fn skip_padding<'a>(from: Rest<'a>, n: usize) -> Result<Rest<'a>, Stop>
    ensures found { IfOk result (λ to. (x : List ℕ) × Takes (lists.raw (octets.pad4 n)) from.entry x to) }
    ensures fault { IfErr result (Refuses (lists.raw (octets.pad4 n)) from.entry) }
{
    let (_, rest) = raw(from, pad4(n as u64) as usize)?;
    Ok(rest)
}

/// So many bytes, with padding behind them.
#[inline(always)]
pub fn padded<'a>(from: Rest<'a>, n: usize) -> Result<(&'a [u8], Rest<'a>), Stop>
    ensures found { IfOk result (λ x. Takes (lists.padded n) from.entry x.0.now x.1) }
    ensures fault { IfErr result (Refuses (lists.padded n) from.entry) }
{
    let (bytes, rest) = raw(from, n)?;
    let rest = skip_padding(rest, n)?;
    Ok((bytes, rest))
}

/// A count of one.
#[tactic(auto, unfolding(tnef_model::specs::TnefLists::one))]
pub fn one<'a>(from: Rest<'a>) -> Result<Rest<'a>, Stop>
    ensures found { IfOk result (λ to. Takes lists.one from.entry 1 to) }
    ensures fault { IfErr result (Refuses lists.one from.entry) }
{
    let (count, rest) = word(from)?;
    if count != 1 {
        return Err(Stop::Fault(Fault {
            reason: Reason::BadCount,
            offset: from.place,
        }));
    }
    Ok(rest)
}

/// A size of at least so many bytes, and even where it has to be.
#[tactic(auto, unfolding(tnef_model::specs::TnefLists::size))]
pub fn size<'a>(from: Rest<'a>, even: bool, least: u32) -> Result<(u32, Rest<'a>), Stop>
    ensures found { IfOk result (λ x. Takes (lists.size even least) from.entry x.0 x.1) }
    ensures fault { IfErr result (Refuses (lists.size even least) from.entry) }
{
    let (n, rest) = word(from)?;
    if (even && n % 2 != 0) || n < least {
        return Err(Stop::Fault(Fault {
            reason: Reason::BadSize,
            offset: from.place,
        }));
    }
    Ok((n, rest))
}

/// A size, so many bytes, and padding.
#[tactic(auto, unfolding(tnef_model::specs::TnefLists::sized))]
pub fn sized<'a>(from: Rest<'a>, even: bool, least: u32) -> Result<(Object<'a>, Rest<'a>), Stop>
    ensures found { IfOk result (λ x. Takes (lists.sized even least) from.entry (x.0.offset, x.0.bytes.now) x.1) }
    ensures fault { IfErr result (Refuses (lists.sized even least) from.entry) }
{
    let (n, rest) = size(from, even, least)?;
    let (bytes, after) = padded(rest, n as usize)?;
    Ok((
        Object {
            bytes,
            offset: rest.place,
        },
        after,
    ))
}
