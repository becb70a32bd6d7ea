use crate::tests::file::file_of;
use crate::tests::{ends, refuse, write};
use carrier_io::{Reason, le16, le32, le64};
use std::test::*;

/// A signature, the key 1, the version and the code page 1252.
pub(crate) const FRONT: [u8; 40] = [
    0x78, 0x9f, 0x3e, 0x22, 1, 0, 1, 0x06, 0x90, 0x08, 0, 4, 0, 0, 0, 0, 0, 1, 0, 1, 0, 1, 0x07,
    0x90, 0x06, 0, 8, 0, 0, 0, 0xe4, 4, 0, 0, 0, 0, 0, 0, 0xe8, 0,
];

/// The beginning of an attachment without a position.
const RENDERING: [u8; 14] = [1, 0, 0xff, 0xff, 0xff, 0xff, 0, 0, 0, 0, 0, 0, 0, 0];

/// The interface of a message.
pub(crate) const MESSAGE: [u8; 16] = [7, 3, 2, 0, 0, 0, 0, 0, 0xc0, 0, 0, 0, 0, 0, 0, 0x46];

/// A property of the type Integer32, value 1, named 820D in a set; its id is 8000.
pub(crate) const NAMED: [u8; 32] = [
    3, 0, 0, 0x80, 2, 0x20, 6, 0, 0, 0, 0, 0, 0xc0, 0, 0, 0, 0, 0, 0, 0x46, 0, 0, 0, 0, 0x0d, 0x82,
    0, 0, 1, 0, 0, 0,
];

/// Appends an attribute with its sum.
pub(crate) fn attribute(out: &mut Vec<u8>, level: u8, id: u32, value: &[u8]) -> Result<(), Fail> {
    let mut sum = 0u16;
    for byte in value {
        sum = sum.wrapping_add(u16::from(*byte));
    }
    let len = u32::try_from(value.len())?;
    out.push(level)?;
    out.extend_from_slice(&le32(id))?;
    out.extend_from_slice(&le32(len))?;
    out.extend_from_slice(value)?;
    out.extend_from_slice(&le16(sum))?;
    Ok(())
}

/// The front, and one attribute of the message.
fn stream(rt: &HostRuntime, id: u32, value: &[u8]) -> Result<Vec<u8>, Fail> {
    let mut out = Vec::from_slice(rt.alloc(), &FRONT)?;
    attribute(&mut out, 1, id, value)?;
    Ok(out)
}

/// The front, and the list of a message.
pub(crate) fn listed(rt: &HostRuntime, list: &[u8]) -> Result<Vec<u8>, Fail> {
    stream(rt, 0x0006_9003, list)
}

/// A message with one attachment, whose Object has a size and bytes; the value begins at 105.
pub(crate) fn with_object(rt: &HostRuntime, size: u32, value: &[&[u8]]) -> Result<Vec<u8>, Fail> {
    let mut out = listed(rt, &[0, 0, 0, 0])?;
    attribute(&mut out, 2, 0x0006_9002, &RENDERING)?;
    let mut list = Vec::from_slice(rt.alloc(), &[1, 0, 0, 0, 0x0d, 0, 1, 0x37, 1, 0, 0, 0])?;
    list.extend_from_slice(&le32(size))?;
    for part in value {
        list.extend_from_slice(part)?;
    }
    attribute(&mut out, 2, 0x0006_9005, &list)?;
    Ok(out)
}

/// A message in which so many messages lie, each in the one before, and at last this one.
pub(crate) fn nested_over(rt: &HostRuntime, inner: &[u8], levels: u32) -> Result<Vec<u8>, Fail> {
    let mut stream = inner.to_vec(rt.alloc())?;
    for _ in 0..levels {
        let size = u32::try_from(stream.len())?;
        let size = size.checked_add(16).ok_or("a size")?;
        let zeros = [0u8; 3];
        let padding = &zeros[..((4 - size % 4) % 4) as usize];
        stream = with_object(rt, size, &[&MESSAGE, &stream, padding])?;
    }
    Ok(stream)
}

/// A message in which so many messages lie, each in the one before.
fn nested(rt: &HostRuntime, levels: u32) -> Result<Vec<u8>, Fail> {
    nested_over(rt, &listed(rt, &[0, 0, 0, 0])?, levels)
}

/// A list of texts in 16-bit units, and a list of a text with two nulls.
const TEXTS: [u8; 28] = [
    1, 0, 0, 0, 0x1f, 0x10, 0x34, 0x12, 2, 0, 0, 0, 4, 0, 0, 0, 0x41, 0, 0, 0, 2, 0, 0, 0, 0, 0, 0,
    0,
];

const NULLS: [u8; 24] = [
    1, 0, 0, 0, 0x1f, 0, 0x37, 0, 1, 0, 0, 0, 6, 0, 0, 0, 0x41, 0, 0, 0, 0, 0, 0, 0,
];

/// A list with the one named property, which has an id of its own.
fn named_by(rt: &HostRuntime, id: [u8; 2]) -> Result<Vec<u8>, Fail> {
    let mut list = Vec::from_slice(rt.alloc(), &[1, 0, 0, 0, 3, 0])?;
    list.extend_from_slice(&id)?;
    list.extend_from_slice(&NAMED[4..])?;
    listed(rt, &list)
}

/// A canonical stream stays as it is, also by way of a .msg file of either version.
fn stays(rt: &HostRuntime, input: &[u8]) -> Result<(), Fail> {
    write(rt, "to-tnef", input, input)?;
    for command in ["to-msg", "to-msg4"] {
        write(rt, "to-tnef", &file_of(rt, command, input)?, input)?;
    }
    Ok(())
}

#[test]
fn canonical_streams_stay(rt: HostRuntime) -> Result<(), Fail> {
    stays(&rt, &listed(&rt, &TEXTS)?)?;
    stays(&rt, &listed(&rt, &NULLS)?)?;
    stays(&rt, &named_by(&rt, [0, 0x80])?)?;
    stays(&rt, &nested(&rt, 1)?)?;
    stays(&rt, &nested(&rt, 32)?)
}

/// Noon of the 29th of February 2024.
const DATE: [u8; 14] = [0xe8, 7, 2, 0, 0x1d, 0, 0x0c, 0, 0, 0, 0, 0, 4, 0];

#[test]
fn names_get_the_ids_of_their_order(rt: HostRuntime) -> Result<(), Fail> {
    let other = named_by(&rt, [0x65, 0x87])?;
    write(&rt, "to-tnef", &other, &named_by(&rt, [0, 0x80])?)
}

#[test]
fn dates_of_older_attributes(rt: HostRuntime) -> Result<(), Fail> {
    let mut sent = Vec::from_slice(rt.alloc(), &[1, 0, 0, 0, 0x40, 0, 0x39, 0])?;
    sent.extend_from_slice(&le64(133_536_816_000_000_000))?;
    let wanted = listed(&rt, &sent)?;
    let dated = stream(&rt, 0x0003_8005, &DATE)?;
    write(&rt, "to-tnef", &dated, &wanted)?;
    let mut no_date = DATE;
    no_date[0] = 0xe7;
    let nothing = listed(&rt, &[0; 4])?;
    let undated = stream(&rt, 0x0003_8005, &no_date)?;
    write(&rt, "to-tnef", &undated, &nothing)
}

#[test]
fn a_date_beside_a_list_that_has_its_id(rt: HostRuntime) -> Result<(), Fail> {
    let binary = [1, 0, 0, 0, 2, 1, 0x39, 0, 1, 0, 0, 0, 0, 0, 0, 0];
    let mut both = stream(&rt, 0x0003_8005, &DATE)?;
    attribute(&mut both, 1, 0x0006_9003, &binary)?;
    write(&rt, "to-tnef", &both, &listed(&rt, &binary)?)
}

/// The commands that take a TNEF stream and write nothing of one with a fault.
const READERS: &str = "to-tnef to-msg to-msg4 wrap show check";

#[test]
fn faults_in_messages_below(rt: HostRuntime) -> Result<(), Fail> {
    let mut wrong_sum = FRONT;
    wrong_sum[38] = 0xe9;
    let inner = with_object(&rt, 56, &[&MESSAGE, &wrong_sum])?;
    refuse(&rt, READERS, &inner, Reason::BadSum, 159)?;
    refuse(&rt, READERS, &nested(&rt, 33)?, Reason::TooDeep, 3977)
}

/// A stream with so many recipients without properties.
pub(crate) fn with_recipients(rt: &HostRuntime, count: u32) -> Result<Vec<u8>, Fail> {
    let mut lists = Vec::from_slice(rt.alloc(), &le32(count))?;
    for _ in 0..count {
        lists.extend_from_slice(&[0; 4])?;
    }
    stream(rt, 0x0006_9004, &lists)
}

#[test]
fn many_recipients(rt: HostRuntime) -> Result<(), Fail> {
    let input = with_recipients(&rt, 2049)?;
    let canonical = file_of(&rt, "to-tnef", &input)?;
    write(&rt, "to-tnef", &canonical, &canonical)?;
    ends(&rt, "to-msg", &input, 3, b"unfit Recipients 2049\n")
}

/// A stream with so many properties, each of a name of its own.
fn with_names(rt: &HostRuntime, count: u32) -> Result<Vec<u8>, Fail> {
    let mut named = Vec::from_slice(rt.alloc(), &le32(count))?;
    for number in 0..count {
        named.extend_from_slice(&NAMED[..24])?;
        named.extend_from_slice(&le32(number))?;
        named.extend_from_slice(&[1, 0, 0, 0])?;
    }
    listed(rt, &named)
}

#[test]
fn too_many_names(rt: HostRuntime) -> Result<(), Fail> {
    let input = with_names(&rt, 32_001)?;
    ends(&rt, "to-tnef", &input, 3, b"unfit Names 32001\n")?;
    ends(&rt, "to-msg", &input, 3, b"unfit Names 32001\n")
}
