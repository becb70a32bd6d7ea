use carrier_io::{Fault, Reason, Stop, le16, le32};
use msg_tree::depth;
use prop_names::Key;
use prop_values::{Kind, Props, Value};
use std::test::*;
use tnef_attributes::{attribute_head, sum16};
use tnef_message::{Held, read_tnef};

/// A signature, a key, the version and the code page 1252.
const FRONT: [u8; 40] = [
    0x78, 0x9f, 0x3e, 0x22, 1, 0, 1, 0x06, 0x90, 0x08, 0, 4, 0, 0, 0, 0, 0, 1, 0, 1, 0, 1, 0x07,
    0x90, 0x06, 0, 8, 0, 0, 0, 0xe4, 4, 0, 0, 0, 0, 0, 0, 0xe8, 0,
];

/// The list of a message, with one property of id 0017 and value 2.
const ONE: [u8; 23] = [
    1, 3, 0x90, 6, 0, 12, 0, 0, 0, 1, 0, 0, 0, 3, 0, 0x17, 0, 2, 0, 0, 0, 0x1d, 0,
];

/// The interface of a message, and that of a storage.
const MESSAGE: [u8; 16] = [7, 3, 2, 0, 0, 0, 0, 0, 0xc0, 0, 0, 0, 0, 0, 0, 0x46];

const STORAGE: [u8; 16] = [0x0b, 0, 0, 0, 0, 0, 0, 0, 0xc0, 0, 0, 0, 0, 0, 0, 0x46];

fn attribute(out: &mut Vec<u8>, level: u8, id: u32, value: &[u8]) -> Result<(), Fail> {
    let len = u32::try_from(value.len())?;
    out.extend_from_slice(&attribute_head(level, id, len))?;
    out.extend_from_slice(value)?;
    out.extend_from_slice(&le16(sum16(value)))?;
    Ok(())
}

/// A stream with one attachment, whose Object has a size and bytes; the value begins at 105.
fn with_object(rt: &HostRuntime, size: u32, value: &[&[u8]]) -> Result<Vec<u8>, Fail> {
    let mut out = Vec::from_slice(rt.alloc(), &FRONT)?;
    attribute(&mut out, 1, 0x0006_9003, &[0, 0, 0, 0])?;
    let rendering = [1, 0, 0xff, 0xff, 0xff, 0xff, 0, 0, 0, 0, 0, 0, 0, 0];
    attribute(&mut out, 2, 0x0006_9002, &rendering)?;
    let mut list = Vec::from_slice(rt.alloc(), &[1, 0, 0, 0, 0x0d, 0, 1, 0x37, 1, 0, 0, 0])?;
    list.extend_from_slice(&le32(size))?;
    for part in value {
        list.extend_from_slice(part)?;
    }
    attribute(&mut out, 2, 0x0006_9005, &list)?;
    Ok(out)
}

/// A stream in which so many streams lie, each in the one before.
fn nested(rt: &HostRuntime, levels: u32) -> Result<Vec<u8>, Fail> {
    let mut stream = Vec::from_slice(rt.alloc(), &FRONT)?;
    for _ in 0..levels {
        let size = u32::try_from(stream.len())?;
        let size = size.checked_add(16).ok_or("a size")?;
        stream = with_object(rt, size, &[&MESSAGE, &stream, &[0, 0, 0]])?;
    }
    Ok(stream)
}

fn bytes_of<'a>(props: &Props<Held<'a>>, id: u16, kind: Kind) -> Option<&'a [u8]> {
    let k = props.find(&Key::Id(id), kind)?;
    match &props.get(k).value {
        Value::Bytes { bytes, .. } => match bytes {
            Held::Slice(slice) => Some(*slice),
            Held::View(_) | Held::Owned(_) => None,
        },
        _ => None,
    }
}

fn number_of(props: &Props<Held<'_>>, id: u16, kind: Kind) -> Option<u64> {
    let k = props.find(&Key::Id(id), kind)?;
    match &props.get(k).value {
        Value::Number { bits, .. } => Some(*bits),
        _ => None,
    }
}

/// The stream has to be refused for the reason at the offset.
fn refused(rt: &HostRuntime, stream: &[u8], reason: Reason, offset: u64) -> Result<(), Fail> {
    if stream.len() > 268_435_456 {
        return Err("too long".into());
    }
    match read_tnef(rt.alloc(), stream) {
        Err(Stop::Fault(fault)) if fault == Fault { reason, offset } => Ok(()),
        Err(_) => Err("another end".into()),
        Ok(_) => Err("a message".into()),
    }
}

/// The front, and an attribute.
fn with_attribute(rt: &HostRuntime, level: u8, id: u32, value: &[u8]) -> Result<Vec<u8>, Fail> {
    let mut out = Vec::from_slice(rt.alloc(), &FRONT)?;
    attribute(&mut out, level, id, value)?;
    Ok(out)
}

#[test]
fn a_stream_is_read(rt: HostRuntime) -> Result<(), Fail> {
    let mut stream = Vec::from_slice(rt.alloc(), &FRONT)?;
    stream.extend_from_slice(&ONE)?;
    assert!(rt; stream.len() <= 1000);
    let accepted = read_tnef(rt.alloc(), &stream)?;
    let props = &accepted.tree.top().props;
    assert_eq!(rt; props.len(), 1);
    let number = number_of(props, 0x0017, Kind::Integer32).ok_or("a number")?;
    assert_eq!(rt; number, 2);
    assert_eq!(rt; accepted.passed.len(), 0);
    Ok(())
}

/// The value of a list with a name that is neither a number nor a text.
const KIND_TWO: [u8; 36] = [
    1, 0, 0, 0, 3, 0, 0, 0x80, 8, 0x20, 6, 0, 0, 0, 0, 0, 0xc0, 0, 0, 0, 0, 0, 0, 0x46, 2, 0, 0, 0,
    0, 0, 0, 0, 0, 0, 0, 0,
];

#[test]
fn faults_of_attributes(rt: HostRuntime) -> Result<(), Fail> {
    let named = with_attribute(&rt, 1, 0x0006_9003, &KIND_TWO)?;
    refused(&rt, &named, Reason::BadNameKind, 73)?;
    let mut twice = Vec::from_slice(rt.alloc(), &FRONT)?;
    twice.extend_from_slice(&ONE)?;
    twice.extend_from_slice(&ONE)?;
    refused(&rt, &twice, Reason::DoubleAttribute, 63)?;
    let lone = with_attribute(&rt, 2, 0x0006_9005, &[0; 4])?;
    refused(&rt, &lone, Reason::NoAttachment, 40)?;
    let third = with_attribute(&rt, 3, 0x0006_9003, &[0; 4])?;
    refused(&rt, &third, Reason::BadLevel, 40)
}

#[test]
fn a_subject_that_comes_again(rt: HostRuntime) -> Result<(), Fail> {
    let mut subjects = with_attribute(&rt, 1, 0x0001_8004, b"one")?;
    attribute(&mut subjects, 1, 0x0001_8004, b"two")?;
    refused(&rt, &subjects, Reason::DoubleAttribute, 54)
}

#[test]
fn faults_of_objects(rt: HostRuntime) -> Result<(), Fail> {
    let small = with_object(&rt, 15, &[&[0; 16]])?;
    refused(&rt, &small, Reason::BadSize, 101)?;
    let other = with_object(&rt, 16, &[&[0; 16]])?;
    refused(&rt, &other, Reason::BadInterface, 105)?;
    let storage = with_object(&rt, 16, &[&STORAGE])?;
    refused(&rt, &storage, Reason::FileTruncated, 121)?;
    let mut wrong_sum = FRONT;
    wrong_sum[38] = 0xe9;
    let inner = with_object(&rt, 79, &[&MESSAGE, &wrong_sum, &ONE, &[0]])?;
    refused(&rt, &inner, Reason::BadSum, 159)?;
    refused(&rt, &nested(&rt, 33)?, Reason::TooDeep, 3977)
}

#[test]
fn streams_in_streams(rt: HostRuntime) -> Result<(), Fail> {
    let stream = nested(&rt, 32)?;
    assert!(rt; stream.len() <= 268_435_456);
    let accepted = read_tnef(rt.alloc(), &stream)?;
    assert_eq!(rt; depth(&accepted.tree), 32);
    Ok(())
}

/// Noon of the 29th of February 2024.
const DATE: [u8; 14] = [0xe8, 7, 2, 0, 0x1d, 0, 0x0c, 0, 0, 0, 0, 0, 4, 0];

#[test]
fn a_date_is_a_time(rt: HostRuntime) -> Result<(), Fail> {
    let stream = with_attribute(&rt, 1, 0x0003_8005, &DATE)?;
    assert!(rt; stream.len() <= 1000);
    let accepted = read_tnef(rt.alloc(), &stream)?;
    let sent = number_of(&accepted.tree.top().props, 0x0039, Kind::Time).ok_or("a time")?;
    assert_eq!(rt; sent, 133_536_816_000_000_000);
    Ok(())
}

#[test]
fn a_list_before_a_date(rt: HostRuntime) -> Result<(), Fail> {
    let mut stream = with_attribute(&rt, 1, 0x0003_8005, &DATE)?;
    let list = [1, 0, 0, 0, 2, 1, 0x39, 0, 1, 0, 0, 0, 0, 0, 0, 0];
    attribute(&mut stream, 1, 0x0006_9003, &list)?;
    assert!(rt; stream.len() <= 1000);
    let accepted = read_tnef(rt.alloc(), &stream)?;
    let props = &accepted.tree.top().props;
    assert_eq!(rt; props.len(), 1);
    let kept = bytes_of(props, 0x0039, Kind::Binary).ok_or("bytes")?;
    assert_eq!(rt; kept.len(), 0);
    Ok(())
}
