use crate::tests::file::{changed, file_of, place_of};
use crate::tests::stream::{MESSAGE, listed, nested_over, with_object};
use crate::tests::{refuse, write};
use carrier_io::Reason;
use std::test::*;

/// The interface of an OLE store.
pub(crate) const STORAGE: [u8; 16] = [0x0b, 0, 0, 0, 0, 0, 0, 0, 0xc0, 0, 0, 0, 0, 0, 0, 0x46];

/// Four properties of the type Integer32.
const FOUR: [u8; 36] = [
    4, 0, 0, 0, 3, 0, 0x17, 0, 2, 0, 0, 0, 3, 0, 0x26, 0, 1, 0, 0, 0, 3, 0, 0x36, 0, 0, 0, 0, 0, 3,
    0, 7, 0x0e, 5, 0, 0, 0,
];

pub(crate) const FREE: u32 = 0xFFFF_FFFF;

pub(crate) const END: u32 = 0xFFFF_FFFE;

/// The numbers of a compound file of three sectors that has nothing in it but its root, from some places on: the header,
/// the table, the root's name, links and start, and three unused entries.
const EMPTY_FILE: [(u32, &[u32]); 11] = [
    (0, &[0xE011_CFD0, 0xE11A_B1A1]),
    (24, &[0x0003_003E, 0x0009_FFFE, 6]),
    (44, &[1, 1, 0, 4096, END, 0, END]),
    (512, &[0xFFFF_FFFD, END]),
    (1024, &[0x006F_0052, 0x0074_006F, 0x0045_0020]),
    (1036, &[0x0074_006E, 0x0079_0072]),
    (1088, &[0x0105_0016, FREE, FREE, FREE]),
    (1140, &[END]),
    (1220, &[FREE, FREE, FREE]),
    (1348, &[FREE, FREE, FREE]),
    (1476, &[FREE, FREE, FREE]),
];

/// Writes numbers from a place on.
fn put(file: &mut Vec<u8>, at: u32, numbers: &[u32]) {
    for (field, number) in file.chunks_exact_mut(4).skip(at as usize / 4).zip(numbers) {
        field.copy_from_slice(&number.to_le_bytes());
    }
}

/// A compound file with these numbers, and free words where its table has no other.
fn compound(rt: &HostRuntime, numbers: &[(u32, &[u32])]) -> Result<Vec<u8>, Fail> {
    let mut file = vec![in rt.alloc(); 0; 1536]?;
    put(&mut file, 80, &[FREE; 236]);
    for (at, numbers) in numbers {
        put(&mut file, *at, numbers);
    }
    Ok(file)
}

/// The file whose ten sectors from the sixth on stand in falling order, the value's chain with them.
fn falling(rt: &HostRuntime, file: &[u8]) -> Result<Vec<u8>, Fail> {
    let mut copy = changed(rt, file, 1780, &[14])?;
    for i in 0..10u32 {
        let from = (15 - i) as usize * 512;
        let sector = file.get(from..from + 512).ok_or("a sector")?;
        copy = changed(rt, &copy, (6 + i) as usize * 512, sector)?;
        let next = if i == 0 { 0xFFFF_FFFE } else { 4 + i };
        copy = changed(rt, &copy, 532 + 4 * i as usize, &next.to_le_bytes())?;
    }
    Ok(copy)
}

#[test]
fn lists_across_mini_sectors(rt: HostRuntime) -> Result<(), Fail> {
    let inner = listed(&rt, &FOUR)?;
    let stream = with_object(&rt, 103, &[&MESSAGE, &inner, &[0]])?;
    let file = file_of(&rt, "to-msg", &stream)?;
    write(&rt, "to-tnef", &file, &stream)
}

#[test]
fn values_in_falling_sectors(rt: HostRuntime) -> Result<(), Fail> {
    let mut list = Vec::from_slice(rt.alloc(), &[1, 0, 0, 0, 2, 1, 0x13, 0x10, 1, 0, 0, 0])?;
    list.extend_from_slice(&5000u32.to_le_bytes())?;
    for i in 0..5000u32 {
        list.push((i % 251) as u8)?;
    }
    let stream = listed(&rt, &list)?;
    let file = file_of(&rt, "to-msg", &stream)?;
    assert_eq!(rt; file.len(), 8192);
    write(&rt, "to-tnef", &falling(&rt, &file)?, &stream)
}

/// A file with an Object, a property of a type that a list does not keep, an empty text without a stream and two red entries.
pub(crate) fn with_passed_entries(rt: &HostRuntime) -> Result<Vec<u8>, Fail> {
    let mut file = file_of(rt, "to-msg", &listed(rt, &FOUR)?)?;
    let entries = [
        (2608, &[0x0d, 0, 0x12, 0x0e, 6, 0, 0, 0, 0][..]),
        (2624, &[0xfb, 0, 0x40, 0x67, 6, 0, 0, 0, 0][..]),
        (2640, &[0x1f, 0, 0x37, 0, 6, 0, 0, 0, 2][..]),
        (1152 + 67, &[0][..]),
        (1664 + 67, &[0][..]),
    ];
    for (at, bytes) in entries {
        file = changed(rt, &file, at, bytes)?;
    }
    Ok(file)
}

#[test]
fn entries_that_are_passed_over(rt: HostRuntime) -> Result<(), Fail> {
    let list = [
        2, 0, 0, 0, 3, 0, 0x17, 0, 2, 0, 0, 0, 0x1f, 0, 0x37, 0, 1, 0, 0, 0, 2, 0, 0, 0, 0, 0, 0, 0,
    ];
    let file = with_passed_entries(&rt)?;
    write(&rt, "to-tnef", &file, &listed(&rt, &list)?)
}

#[test]
fn a_store_without_members(rt: HostRuntime) -> Result<(), Fail> {
    let carried = compound(&rt, &EMPTY_FILE)?;
    let stream = with_object(&rt, 1552, &[&STORAGE, &carried])?;
    assert_eq!(rt; stream.len(), 1659);
    write(&rt, "to-tnef", &stream, &stream)?;
    let file = file_of(&rt, "to-msg", &stream)?;
    assert_eq!(rt; file.len(), 3584);
    write(&rt, "to-tnef", &file, &stream)
}

/// The carried file whose root has one stream without bytes, named U+2345.
fn with_member(rt: &HostRuntime) -> Result<Vec<u8>, Fail> {
    let mut file = compound(rt, &EMPTY_FILE)?;
    put(&mut file, 1100, &[1]);
    put(&mut file, 1152, &[0x2345]);
    put(&mut file, 1216, &[0x0102_0004]);
    put(&mut file, 1268, &[END]);
    Ok(file)
}

/// A directory entry's first 66 bytes: a name and its length in bytes, with its null.
fn entry_name(rt: &HostRuntime, name: &str) -> Result<Vec<u8>, Fail> {
    let mut field = Vec::new(rt.alloc());
    for letter in name.as_bytes() {
        field.extend_from_slice(&[*letter, 0])?;
    }
    let size = u8::try_from(field.len())?;
    field.resize(64, 0)?;
    field.extend_from_slice(&[size.wrapping_add(2), 0])?;
    Ok(field)
}

#[test]
fn a_file_with_a_level_too_many(rt: HostRuntime) -> Result<(), Fail> {
    let carried = with_member(&rt)?;
    let inner = with_object(&rt, 1552, &[&STORAGE, &carried])?;
    let file = file_of(&rt, "to-msg", &nested_over(&rt, &inner, 32)?)?;
    let member = place_of(&file, &[0x45, 0x23, 0, 0]).ok_or("a member")?;
    let deep = changed(
        &rt,
        &file,
        member,
        &entry_name(&rt, "__properties_version1.0")?,
    )?;
    let entry = [
        0x0d, 0, 1, 0x37, 6, 0, 0, 0, 0xff, 0xff, 0xff, 0xff, 4, 0, 0, 0,
    ];
    let place = place_of(&file, &entry).ok_or("an entry")?;
    let writers = "to-msg to-msg4 to-tnef";
    refuse(&rt, writers, &deep, Reason::TooDeep, place as u64)
}
