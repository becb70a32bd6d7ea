use carrier_io::MemorySink;
use prop_names::Key;
use prop_values::{Prop, Value};
use std::test::*;
use tnef_attributes::{Attribute, Attributes, legacy_prop, sum16, write_attribute};

/// A signature, a key, and one attribute of four bytes.
const STREAM: [u8; 21] = [
    0x78, 0x9f, 0x3e, 0x22, 1, 0, 1, 0x06, 0x90, 0x08, 0, 4, 0, 0, 0, 0, 0, 1, 0, 1, 0,
];

#[test]
fn attributes_are_read(rt: HostRuntime) -> Result<(), Fail> {
    let attributes = Attributes::read(rt.alloc(), &STREAM, 0)?;
    assert_eq!(rt; attributes.len(), 1);
    let version = attributes.get(0);
    assert_eq!(rt; version.level, 1);
    assert_eq!(rt; version.id, 0x0008_9006);
    assert_eq!(rt; version.offset, 6);
    assert_eq!(rt; version.bytes, [0, 0, 1, 0].as_slice());
    assert_eq!(rt; attributes.as_slice().len(), 1);
    Ok(())
}

#[test]
fn attributes_are_written(rt: HostRuntime) -> Result<(), Fail> {
    let mut sink = MemorySink::new(rt.alloc(), 100, Vec::new(rt.alloc()))?;
    write_attribute(&mut sink, 1, 0x0008_9006, &[0, 0, 1, 0])?;
    assert_eq!(rt; sink.bytes(), &STREAM[6..]);
    assert_eq!(rt; sum16(&[255, 255]), 510);
    Ok(())
}

const SUBJECT: u32 = 0x0001_8004;

const SENT: u32 = 0x0003_8005;

const RENDERING: u32 = 0x0006_9002;

const PAGE: u32 = 0x0006_9007;

const CLASS: u32 = 0x0007_8008;

/// The property of an attribute of at most a hundred bytes.
fn given<'a>(id: u32, bytes: &'a [u8]) -> Option<Prop<&'a [u8]>> {
    if bytes.len() > 100 {
        return None;
    }
    legacy_prop(&Attribute {
        level: 1,
        id,
        offset: 6,
        bytes,
    })
}

fn number_given(id: u32, bytes: &[u8]) -> Option<(u16, u64)> {
    let prop = given(id, bytes)?;
    match &prop.key {
        Key::Id(id) => match &prop.value {
            Value::Number { bits, .. } => Some((*id, *bits)),
            _ => None,
        },
        Key::Named(_) => None,
    }
}

fn text_given<'a>(id: u32, bytes: &'a [u8]) -> Option<(u16, &'a [u8])> {
    let prop = given(id, bytes)?;
    match &prop.key {
        Key::Id(id) => match &prop.value {
            Value::Bytes { bytes, .. } => Some((*id, *bytes)),
            _ => None,
        },
        Key::Named(_) => None,
    }
}

#[test]
fn numbers_of_older_attributes(rt: HostRuntime) -> Result<(), Fail> {
    let rows: [(u32, &[u8], Option<(u16, u64)>); 8] = [
        (
            SENT,
            &[0xe8, 7, 2, 0, 0x1d, 0, 0x0c, 0, 0, 0, 0, 0, 4, 0],
            Some((0x0039, 133_536_816_000_000_000)),
        ),
        (
            SENT,
            &[0xe7, 7, 2, 0, 0x1d, 0, 0x0c, 0, 0, 0, 0, 0, 4, 0],
            None,
        ),
        (
            SENT,
            &[0x41, 6, 1, 0, 1, 0, 0, 0, 0, 0, 0, 0, 0, 0],
            Some((0x0039, 0)),
        ),
        (PAGE, &[0xe3, 4, 0, 0, 0, 0, 0, 0], Some((0x3ffd, 1251))),
        (PAGE, &[0xe4, 4, 0, 0, 0, 0, 0, 0], None),
        (RENDERING, &[1, 0, 5, 0, 0, 0], Some((0x370b, 5))),
        (RENDERING, &[1, 0, 0xff, 0xff, 0xff, 0xff], None),
        (0x0008_9006, &[0, 0, 1, 0], None),
    ];
    for (id, bytes, wanted) in &rows {
        assert_eq!(rt; number_given(*id, bytes), *wanted);
    }
    Ok(())
}

#[test]
fn texts_of_older_attributes(rt: HostRuntime) -> Result<(), Fail> {
    let rows: [(u32, &[u8], u16, &[u8]); 5] = [
        (CLASS, b"IPM.Microsoft Mail.Note\0", 0x001a, b"IPM.Note"),
        (
            CLASS,
            b"IPM.Microsoft Schedule.MtgRespA",
            0x001a,
            b"IPM.Schedule.Meeting.Resp.Tent",
        ),
        (CLASS, b"IPM.Note.Mine\0", 0x001a, b"IPM.Note.Mine"),
        (SUBJECT, b"Hi\0", 0x0037, b"Hi"),
        (SUBJECT, b"Hi", 0x0037, b"Hi"),
    ];
    for (id, bytes, prop, text) in &rows {
        assert_eq!(rt; text_given(*id, bytes), Some((*prop, *text)));
    }
    Ok(())
}
