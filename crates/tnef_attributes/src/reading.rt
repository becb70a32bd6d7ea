//! One attribute behind the other, up to the end of a stream.
ghost use Rattle.std.specs.Prelude.{◌≡◌, ◌+◌, ◌<◌, ◌≤◌, [], length, IfOk, IfErr};
ghost use Rattle.carrier_model.specs.Trail.{first_fault};
ghost use Rattle.tnef_model.specs.Attributes.{attrs, attr_tests, attr_len, BodyFault};
ghost use Rattle.carrier_model.specs.Items.{Begins, Spells};
ghost use Rattle.carrier_io.specs.Reasons.{refusal};
ghost use Rattle.carrier_io.specs.Reads.{OnFault};
ghost use Rattle.tnef_attributes.specs.Views.{view};

use crate::attributes::{Attribute, Attributes};
use crate::sums::sum16;
use carrier_io::{Fault, Reason, Stop, u16_at, u32_at};
use std::alloc::Global;

fn fault(reason: Reason, offset: u64) -> Fault
    ensures { result ≡ record { reason = reason; offset = offset } }
{
    Fault { reason, offset }
}

/// Tests the attribute at the front, and says how many bytes its value has.
fn tested_len(bytes: &[u8], at: u64) -> Result<usize, Fault>
    requires some { 0 < length bytes.now }
    requires room { at + length bytes.now ≤ 268435456 }
    ensures fault { first_fault (attr_tests at bytes.now) ≡ refusal result }
    ensures len { IfOk result (λ n. n ≡ attr_len bytes.now) }
    ensures fits { IfOk result (λ n. 11 + n ≤ length bytes.now) }
{
    if bytes[0] != 1 && bytes[0] != 2 {
        return Err(fault(Reason::BadLevel, at));
    }
    if bytes.len() < 5 {
        return Err(fault(Reason::Truncated, at + 1));
    }
    if bytes.len() < 9 {
        return Err(fault(Reason::Truncated, at + 5));
    }
    let len = u32_at(bytes, 5) as usize;
    if bytes.len() < 9 + len {
        return Err(fault(Reason::Truncated, at + 9));
    }
    if bytes.len() < 11 + len {
        return Err(fault(Reason::Truncated, at + 9 + len as u64));
    }
    let (_, value) = bytes.split_at(9);
    let (value, _) = value.split_at(len);
    if sum16(value) != u16_at(bytes, 9 + len) {
        return Err(fault(Reason::BadSum, at + 9 + len as u64));
    }
    Ok(len)
}

/// The attribute at the front, and the bytes behind it.
fn attribute_at(bytes: &[u8], at: u64) -> Result<(Attribute<'_>, &[u8]), Fault>
    requires some { 0 < length bytes.now }
    requires room { at + length bytes.now ≤ 268435456 }
    ensures fault { first_fault (attr_tests at bytes.now) ≡ refusal result }
    ensures found { IfOk result (λ x. Begins attrs at bytes.now (view x.0) x.1.now) }
    ensures size { IfOk result (λ x. length bytes.now ≡ 11 + length x.0.bytes.now + length x.1.now) }
{
    let len = tested_len(bytes, at)?;
    let (_, behind) = bytes.split_at(9);
    let (value, _) = behind.split_at(len);
    let attribute = Attribute {
        level: bytes[0],
        id: u32_at(bytes, 1),
        offset: at,
        bytes: value,
    };
    let (_, rest) = bytes.split_at(11 + len);
    Ok((attribute, rest))
}

/// The attributes up to the end of the bytes.
pub fn attributes_of<'a>(alloc: Global, bytes: &'a [u8], at: u64) -> Result<Attributes<'a>, Stop>
    requires { at + length bytes.now ≤ 268435456 }
    ensures found { IfOk result (λ l. Spells attrs at bytes.now l []) }
    ensures fault { IfErr result (OnFault (BodyFault at bytes.now)) }
{
    let mut attributes = Attributes::new(alloc);
    let mut rest = bytes;
    let mut place = at;
    while !rest.is_empty() {
        let (attribute, after) = attribute_at(rest, place)?;
        attributes.push(attribute)?;
        place += 11 + attribute.bytes.len() as u64;
        rest = after;
    }
    Ok(attributes)
}
