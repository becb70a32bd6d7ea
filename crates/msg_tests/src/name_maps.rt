//! Which ids stand for which names, read and written.
ghost use Rattle.std.specs.Prelude.{IfOk};
ghost use Rattle.carrier_model.specs.Keys.{IsName};
ghost use Rattle.msg_nameid.specs.Maps.{IsAssigned};
ghost use Rattle.prop_names.specs.Meaning.{name_of};

use crate::files::{END, FREE, Name as Place, Words, file_of, is_stream, opened, put};
use carrier_io::{Fault, NoMemory, Reason, Stop, Units};
use cfb_list::FileList;
use msg_nameid::NameMap;
use prop_names::{Guid, Name, NameSet};
use std::alloc::Global;
use std::test::*;

/// The set of appointments.
const APPOINTMENT: Guid = Guid([
    0x02, 0x20, 0x06, 0x00, 0x00, 0x00, 0x00, 0x00, 0xc0, 0x00, 0x00, 0x00, 0x00, 0x00, 0x00, 0x46,
]);

/// The set of names by text, of index 2.
const PUBLIC: Guid = Guid([
    0x29, 0x03, 0x02, 0x00, 0x00, 0x00, 0x00, 0x00, 0xc0, 0x00, 0x00, 0x00, 0x00, 0x00, 0x00, 0x46,
]);

/// A storage, and in it the streams of the mini sectors 0 to 2, with a map of four entries: 820D of the appointments is
/// 8005 and 8000, `Ab` of the public strings is 8002, and 8001 has the property set 0.
const MAP: [Words<'static>; 12] = [
    (1144, &[192]),
    (1216, &[0x0101_0028, FREE, FREE, 2]),
    (1344, &[0x0102_002A, FREE, 3, FREE]),
    (1396, &[0, 16]),
    (1472, &[0x0102_002A, FREE, 4, FREE]),
    (1524, &[1, 32]),
    (1600, &[0x0102_002A, FREE, FREE, FREE]),
    (1652, &[2, 8]),
    (2048, &[END, END, END]),
    (2560, &[0x0006_2002, 0, 0xC0, 0x4600_0000]),
    (
        2624,
        &[
            0x820D,
            0x0005_0006,
            0,
            0x0002_0005,
            7,
            0x0001_0000,
            0x820D,
            6,
        ],
    ),
    (2688, &[4, 0x0062_0041]),
];

/// The names in the directory.
const NAMES: [Place; 4] = [
    (1152, "__nameid_version1.0"),
    (1280, "__substg1.0_00020102"),
    (1408, "__substg1.0_00030102"),
    (1536, "__substg1.0_00040102"),
];

/// The names of that file, where one number was changed.
fn read(alloc: Global, at: usize, value: u32) -> Result<NameMap, Stop> {
    let mut file = file_of(alloc, &MAP, &NAMES)?;
    put(&mut file, at, &[value]);
    let files = opened(alloc, &file)?;
    NameMap::read(alloc, &files)
}

/// The text `Ab` of the public strings.
fn two_letters(alloc: Global) -> Result<Name, NoMemory> {
    let mut units = Units::new(alloc);
    units.push(0x41)?;
    units.push(0x62)?;
    Name::of_text(alloc, PUBLIC, units)
}

/// A number of the appointments.
const NUMBER: Name = Name::Number {
    set: APPOINTMENT,
    number: 0x820D,
};

/// What is not so fails the test.
fn holds(fact: bool, what: &'static str) -> Result<(), Fail> {
    if fact { Ok(()) } else { Err(what.into()) }
}

/// Whether an id stands for the name and is the least one that does.
fn is_pair(map: &NameMap, id: u16, name: &Name) -> bool {
    match map.name_of(id) {
        Some(found) => found.order(name).is_eq() && map.id_of(name, id) == Some(id),
        None => false,
    }
}

/// How many ids of these stand for a name.
fn named(map: &NameMap, ids: &[u16]) -> usize {
    ids.iter().filter(|id| map.name_of(**id).is_some()).count()
}

#[test]
fn names_of_a_file(rt: HostRuntime) -> Result<(), Fail> {
    let map = read(rt.alloc(), 0, 0xE011_CFD0)?;
    holds(is_pair(&map, 0x8000, &NUMBER), "no number")?;
    let text = two_letters(rt.alloc())?;
    holds(is_pair(&map, 0x8002, &text), "no text")?;
    holds(
        named(&map, &[0, 0x7FFF, 0x8001, 0x8003, 0xFFFF]) == 0,
        "more names",
    )
}

/// Where a number is changed, to what, and the reason and the place of the fault that this makes.
const FAULTS: [(usize, u32, Reason, u64); 7] = [
    (2628, 0x8000_0006, Reason::BadPropertyIndex, 2624),
    (2636, 0x0005_0005, Reason::DoubleId, 2632),
    (2636, 0x0001_0005, Reason::DoubleId, 2640),
    (2628, 0x0005_0008, Reason::BadGuidIndex, 2624),
    (2632, 5, Reason::BadNameOffset, 2632),
    (2688, 3, Reason::BadNameLength, 2688),
    (2688, 6, Reason::BadNameLength, 2688),
];

#[test]
fn faults_of_maps(rt: HostRuntime) {
    for (at, value, reason, offset) in FAULTS {
        let end = read(rt.alloc(), at, value).err();
        assert_eq!(rt; end, Some(Stop::Fault(Fault { reason, offset })), "at {at}");
    }
}

/// The map of one name.
fn map_of(alloc: Global, name: &Name) -> Result<NameMap, NoMemory>
    requires { IsName (name_of name.now) }
    ensures { IfOk result IsAssigned }
{
    let mut names = NameSet::new(alloc);
    names.insert(name)?;
    NameMap::assign(alloc, &names)
}

#[test]
fn ids_of_names(rt: HostRuntime) -> Result<(), Fail> {
    let map = map_of(rt.alloc(), &NUMBER)?;
    holds(is_pair(&map, 0x8000, &NUMBER), "no number")?;
    let other = two_letters(rt.alloc())?;
    holds(map.id_of(&other, 0x8000).is_none(), "a text")
}

/// A name and the bytes of a stream.
type Stream<'s> = (&'static str, &'s [u8]);

/// What the storage of a map has to be written as.
fn is_written(alloc: Global, map: &NameMap, streams: &[Stream<'_>]) -> Result<(), Fail>
    requires { IsAssigned map.now }
{
    let mut files: FileList<'_, Vec<u8>> = FileList::new(alloc)?;
    map.add_streams(alloc, &mut files)?;
    if files.count() != 2 {
        return Err("another count".into());
    }
    let written = files.files_in(1);
    holds(written.len() == streams.len(), "another length")?;
    for (file, stream) in written.iter().zip(streams) {
        holds(is_stream(file, stream.0, (stream.1, None)), stream.0)?;
    }
    Ok(())
}

#[test]
fn streams_of_a_number(rt: HostRuntime) -> Result<(), Fail> {
    let map = map_of(rt.alloc(), &NUMBER)?;
    let entry = [0x0D, 0x82, 0, 0, 6, 0, 0, 0];
    let streams: [Stream<'_>; 4] = [
        ("__substg1.0_00020102", &APPOINTMENT.0),
        ("__substg1.0_00030102", &entry),
        ("__substg1.0_00040102", &[]),
        ("__substg1.0_101C0102", &entry),
    ];
    is_written(rt.alloc(), &map, &streams)
}

/// A text of one letter of the public strings.
fn one_letter(alloc: Global, letter: u16) -> Result<Name, NoMemory>
    ensures { IfOk result (λ name. IsName (name_of name)) }
{
    let mut units = Units::new(alloc);
    units.push(letter)?;
    Name::of_text(alloc, PUBLIC, units)
}

/// A letter, and the hash stream of a text of this letter, with its sum.
const HASHED: [(u16, Stream<'static>); 3] = [
    (
        0x0041,
        (
            "__substg1.0_10060102",
            &[0x44, 0x7E, 0x62, 0xE9, 5, 0, 0, 0],
        ),
    ),
    (
        0x0080,
        (
            "__substg1.0_10140102",
            &[0x4B, 0x98, 0x83, 0x3B, 5, 0, 0, 0],
        ),
    ),
    (
        0x8000,
        (
            "__substg1.0_10060102",
            &[0x20, 0x83, 0xB8, 0xED, 5, 0, 0, 0],
        ),
    ),
];

#[test]
fn streams_of_texts(rt: HostRuntime) -> Result<(), Fail> {
    for (letter, hashed) in HASHED {
        let map = map_of(rt.alloc(), &one_letter(rt.alloc(), letter)?)?;
        let [low, high] = letter.to_le_bytes();
        let texts = [2, 0, 0, 0, low, high, 0, 0];
        let streams: [Stream<'_>; 4] = [
            ("__substg1.0_00020102", &[]),
            ("__substg1.0_00030102", &[0, 0, 0, 0, 5, 0, 0, 0]),
            ("__substg1.0_00040102", &texts),
            hashed,
        ];
        is_written(rt.alloc(), &map, &streams)?;
    }
    Ok(())
}

/// The map of a number and a text.
fn two_names(alloc: Global) -> Result<NameMap, NoMemory>
    ensures { IfOk result IsAssigned }
{
    let mut names = NameSet::new(alloc);
    names.insert(&one_letter(alloc, 0x41)?)?;
    names.insert(&NUMBER)?;
    NameMap::assign(alloc, &names)
}

#[test]
fn streams_of_two_names(rt: HostRuntime) -> Result<(), Fail> {
    let map = two_names(rt.alloc())?;
    let streams: [Stream<'_>; 5] = [
        ("__substg1.0_00020102", &APPOINTMENT.0),
        (
            "__substg1.0_00030102",
            &[0x0D, 0x82, 0, 0, 6, 0, 0, 0, 0, 0, 0, 0, 5, 0, 1, 0],
        ),
        ("__substg1.0_00040102", &[2, 0, 0, 0, 0x41, 0, 0, 0]),
        (
            "__substg1.0_10060102",
            &[0x44, 0x7E, 0x62, 0xE9, 5, 0, 1, 0],
        ),
        ("__substg1.0_101C0102", &[0x0D, 0x82, 0, 0, 6, 0, 0, 0]),
    ];
    is_written(rt.alloc(), &map, &streams)
}
