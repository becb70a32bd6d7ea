//! Property lists, read and written.
ghost use Rattle.std.specs.Prelude.{List, IfOk};
ghost use Rattle.carrier_model.specs.Keys.{Name};
ghost use Rattle.msg_model.specs.ReadBack.{NamesAmong};

use crate::files::{END, FREE, Held, Words, file_of, is_stream, opened, put};
use carrier_io::{PassedList, Stop};
use cfb_list::FileList;
use msg_nameid::NameMap;
use msg_props::{Head, add_props, read_props};
use prop_names::{Key, NameSet};
use prop_values::{Kind, Part, Parts, Prop, Props, Value};
use std::alloc::Global;
use std::test::*;

/// The root's one stream, which begins at 2560.
const LIST: [Words<'static>; 3] = [
    (1144, &[64]),
    (1216, &[0x0102_0030, FREE, FREE, FREE]),
    (2048, &[END]),
];

/// How many properties a list has, where the entry of an embedded message is, and how many entries it passes over.
type Outline = (usize, Option<u64>, usize);

/// The outline of a list that has a length and these words of entries.
fn outline(alloc: Global, part: Part, length: u32, entries: &[u32]) -> Result<Outline, Stop> {
    let mut file = file_of(alloc, &LIST, &[(1152, "__properties_version1.0")])?;
    put(&mut file, 1272, &[length]);
    put(&mut file, 2568, entries);
    let files = opened(alloc, &file)?;
    let names = NameMap::read(alloc, &files)?;
    let mut passed = PassedList::new(alloc);
    let list = read_props(alloc, &files, files.root(), part, &names, &mut passed)?;
    Ok((list.props.len(), list.embedded, passed.len()))
}

/// A list, or the number and the place of its fault.
type Row = (Part, u32, &'static [u32], Result<Outline, (u32, u64)>);

const ROWS: [Row; 11] = [
    (Part::Top, 32, &[0x0017_0003, 0, 2], Ok((0, None, 0))),
    (Part::Embedded, 32, &[0x0017_0003, 0, 2], Ok((0, None, 0))),
    (Part::Recipient, 32, &[0x0017_0003, 0, 2], Ok((1, None, 0))),
    (Part::Attachment, 32, &[0x3701_000D], Ok((0, Some(2568), 0))),
    (Part::Recipient, 32, &[0x3701_000D], Ok((0, None, 1))),
    (Part::Recipient, 32, &[0x0037_001F, 0, 2], Ok((1, None, 0))),
    (Part::Recipient, 32, &[0x0037_001F, 0, 4], Err((46, 2568))),
    (Part::Recipient, 32, &[0x0037_FFFF], Err((44, 2568))),
    (Part::Recipient, 32, &[0x8001_0003], Err((45, 2568))),
    (Part::Top, 31, &[], Err((43, 1272))),
    (
        Part::Recipient,
        48,
        &[0x0017_0003, 0, 0, 0, 0x0017_0003],
        Err((48, 2584)),
    ),
];

/// Whether a list is read as its row says.
fn is_read(alloc: Global, row: &Row) -> bool {
    let (part, length, entries, wanted) = row;
    match outline(alloc, *part, *length, *entries) {
        Ok(found) => *wanted == Ok(found),
        Err(Stop::Fault(g)) => *wanted == Err((g.reason.number(), g.offset)),
        Err(Stop::NoMemory) => false,
    }
}

#[test]
fn lists_of_entries(rt: HostRuntime) {
    for row in &ROWS {
        assert!(rt; is_read(rt.alloc(), row));
    }
}

/// The text `A`, without a null.
const LETTER: &[u8] = &[0x41, 0];

/// A number, a text and the same text as the one element of a list.
fn list(alloc: Global) -> Result<Props<&'static [u8]>, Fail>
    ensures { IfOk result (λ props. (names : List Name) → NamesAmong names props) }
{
    let mut props = Props::new(alloc);
    let (kind, bits) = (Kind::Integer32, 5);
    let (key, value) = (Key::Id(0x3705), Value::Number { kind, bits });
    props
        .insert_sorted(Prop { key, value })
        .ok()
        .ok_or("a property")?;
    let (kind, bytes) = (Kind::String, LETTER);
    let (key, value) = (Key::Id(0x3001), Value::Bytes { kind, bytes });
    props
        .insert_sorted(Prop { key, value })
        .ok()
        .ok_or("a property")?;
    let mut list = Parts::new(alloc);
    list.push(LETTER)?;
    let kind = Kind::MultipleString;
    let (key, value) = (Key::Id(0x1234), Value::Parts { kind, list });
    props
        .insert_sorted(Prop { key, value })
        .ok()
        .ok_or("a property")?;
    Ok(props)
}

/// The streams of that list, in the storage of an attachment that holds a store.
const STREAMS: [(&str, Held<'static>); 4] = [
    (
        "__properties_version1.0",
        (
            &[
                0, 0, 0, 0, 0, 0, 0, 0, 0x1F, 0x10, 0x34, 0x12, 6, 0, 0, 0, 4, 0, 0, 0, 0, 0, 0, 0,
                0x1F, 0, 1, 0x30, 6, 0, 0, 0, 4, 0, 0, 0, 0, 0, 0, 0, 0x0D, 0, 1, 0x37, 6, 0, 0, 0,
                0xFF, 0xFF, 0xFF, 0xFF, 4, 0, 0, 0, 3, 0, 5, 0x37, 6, 0, 0, 0, 5, 0, 0, 0, 0, 0, 0,
                0,
            ],
            None,
        ),
    ),
    ("__substg1.0_1234101F", (&[4, 0, 0, 0], None)),
    ("__substg1.0_1234101F-00000000", (LETTER, Some(2))),
    ("__substg1.0_3001001F", (LETTER, Some(0))),
];

#[test]
fn streams_of_a_list(rt: HostRuntime) -> Result<(), Fail> {
    let alloc = rt.alloc();
    let props = list(alloc)?;
    let names = NameMap::assign(alloc, &NameSet::new(alloc))?;
    let head = Head {
        part: Part::Attachment,
        recipients: 0,
        attachments: 0,
    };
    let mut files = FileList::new(alloc)?;
    add_props(alloc, &mut files, 0, head, &props, Some(4), &names)?;
    let written = files.files_in(0);
    assert_eq!(rt; written.len(), 4);
    for (file, stream) in written.iter().zip(STREAMS) {
        assert!(rt; is_stream(file, stream.0, stream.1), "{}", stream.0);
    }
    Ok(())
}

#[test]
fn the_head_of_a_message(rt: HostRuntime) -> Result<(), Fail> {
    let alloc = rt.alloc();
    let props: Props<&[u8]> = Props::new(alloc);
    let names = NameMap::assign(alloc, &NameSet::new(alloc))?;
    let head = Head {
        part: Part::Top,
        recipients: 1,
        attachments: 2,
    };
    let mut files = FileList::new(alloc)?;
    add_props(alloc, &mut files, 0, head, &props, None, &names)?;
    let written = files.files_in(0);
    assert_eq!(rt; written.len(), 1);
    let wanted = b"\0\0\0\0\0\0\0\0\x01\0\0\0\x02\0\0\0\x01\0\0\0\x02\0\0\0\0\0\0\0\0\0\0\0";
    assert!(rt; is_stream(&written[0], "__properties_version1.0", (wanted, None)));
    Ok(())
}
