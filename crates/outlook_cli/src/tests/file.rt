use crate::tests::layout::{END, FREE, STORAGE};
use crate::tests::stream::{NAMED, listed, with_object};
use crate::tests::{ONE_PROPERTY, holds, refuse, run_over, write};
use carrier_io::{Reason, le32, u32_at};
use std::test::*;

/// A TNEF stream without attributes.
pub(crate) const EMPTY: [u8; 6] = [0x78, 0x9f, 0x3e, 0x22, 0x00, 0x00];

/// The file of a stream.
pub(crate) fn file_of(rt: &HostRuntime, command: &str, stream: &[u8]) -> Result<Vec<u8>, Fail> {
    let got = run_over(rt, command, stream, &[], &[])?;
    let done = got.status.code() == 0;
    Ok(done.then_some(got.output).ok_or("a result")?)
}

/// Where bytes stand first in a file.
pub(crate) fn place_of(file: &[u8], bytes: &[u8]) -> Option<usize> {
    for at in 0..file.len() {
        if file[at..].starts_with(bytes) {
            return Some(at);
        }
    }
    None
}

/// The file with other bytes from a place on.
pub(crate) fn changed(
    rt: &HostRuntime,
    file: &[u8],
    at: usize,
    bytes: &[u8],
) -> Result<Vec<u8>, Fail> {
    let mut copy = file.to_vec(rt.alloc())?;
    for (slot, byte) in copy.iter_mut().skip(at).zip(bytes) {
        *slot = *byte;
    }
    Ok(copy)
}

/// A stream with a property 1013 of so many zeros.
fn with_binary(rt: &HostRuntime, size: u16) -> Result<Vec<u8>, Fail> {
    let mut list = Vec::from_slice(
        rt.alloc(),
        &[1, 0, 0, 0, 0x02, 0x01, 0x13, 0x10, 1, 0, 0, 0],
    )?;
    list.extend_from_slice(&le32(u32::from(size)))?;
    list.extend_from_slice(&[0; 4096])?;
    listed(rt, &list)
}

/// The file has these numbers from a place on.
fn has(file: &[u8], at: usize, numbers: &[u32]) -> Result<(), Fail> {
    let fields = file.get(at..).ok_or("a place")?.chunks_exact(4);
    for (field, number) in fields.zip(numbers) {
        holds(u32_at(field, 0) == *number, "another number")?;
    }
    Ok(())
}

#[test]
fn the_file_of_an_empty_message(rt: HostRuntime) -> Result<(), Fail> {
    let file = file_of(&rt, "to-msg", &EMPTY)?;
    assert_eq!(rt; file.len(), 3072);
    has(&file, 512, &[0xFFFF_FFFD, 2, END, END, END, FREE])?;
    has(&file, 1024 + 76, &[1])?;
    has(&file, 1024 + 116, &[4, 64])?;
    has(&file, 1152 + 72, &[5, 3])?;
    has(&file, 1024 + 3 * 128 + 68, &[2, 4])?;
    has(&file, 1024 + 5 * 128 + 116, &[0, 32])
}

#[test]
fn files_are_read_back(rt: HostRuntime) -> Result<(), Fail> {
    let entry = [3, 0, 0x17, 0, 6, 0, 0, 0, 2, 0, 0, 0, 0, 0, 0, 0];
    let file = file_of(&rt, "to-msg", &ONE_PROPERTY)?;
    assert_eq!(rt; file.len(), 3072);
    assert_eq!(rt; &file[2592..2608], &entry[..]);
    write(&rt, "to-tnef", &file, &ONE_PROPERTY)?;
    let other = file_of(&rt, "to-msg4", &ONE_PROPERTY)?;
    write(&rt, "to-tnef", &other, &ONE_PROPERTY)
}

#[test]
fn values_below_and_from_4096_bytes(rt: HostRuntime) -> Result<(), Fail> {
    for (size, mini_stream) in [(4095, 65 * 64), (4096, 64)] {
        let stream = with_binary(&rt, size)?;
        let file = file_of(&rt, "to-msg", &stream)?;
        assert_eq!(rt; file.len(), 7168);
        has(&file, 1024 + 116, &[4, mini_stream])?;
    }
    Ok(())
}

#[test]
fn files_of_version_4(rt: HostRuntime) -> Result<(), Fail> {
    let file = file_of(&rt, "to-msg4", &EMPTY)?;
    assert_eq!(rt; file.len(), 20_480);
    has(&file, 40, &[1])?;
    has(&file, 4096, &[0xFFFF_FFFD, END, END, END])?;
    write(&rt, "to-msg", &file, &file_of(&rt, "to-msg", &EMPTY)?)?;
    let cycle = changed(&rt, &file, 4100, &[1, 0, 0, 0])?;
    refuse(&rt, "to-tnef", &cycle, Reason::Cycle, 4100)?;
    let shared = changed(&rt, &file, 8956, &[1, 0, 0, 0])?;
    refuse(&rt, "to-tnef", &shared, Reason::Shared, 8948)
}

#[test]
fn files_with_faults(rt: HostRuntime) -> Result<(), Fail> {
    let file = file_of(&rt, "to-msg", &EMPTY)?;
    let table = [
        (520, 1, Reason::Cycle, 520),
        (528, 2, Reason::Shared, 528),
        (1144, 1024, Reason::ShortChain, 528),
        (1784, 31, Reason::BadPropStream, 1784),
    ];
    for (at, number, reason, offset) in table {
        let bent = changed(&rt, &file, at, &le32(number))?;
        refuse(&rt, "to-tnef", &bent, reason, offset)?;
    }
    refuse(&rt, "wrap", &file, Reason::BadSignature, 0)?;
    let stored = with_object(&rt, 16 + 3072, &[&STORAGE, &file])?;
    refuse(&rt, "to-msg", &stored, Reason::StoreIsMessage, 1905)
}

#[test]
fn the_high_half_of_a_size(rt: HostRuntime) -> Result<(), Fail> {
    let file = file_of(&rt, "to-msg", &EMPTY)?;
    let high = changed(&rt, &file, 1788, &[1, 0, 0, 0])?;
    write(&rt, "to-tnef", &high, &file_of(&rt, "to-tnef", &EMPTY)?)
}

#[test]
fn entries_of_a_property_list(rt: HostRuntime) -> Result<(), Fail> {
    let file = file_of(&rt, "to-msg", &ONE_PROPERTY)?;
    let table = [
        ([3, 0, 0, 0x80, 0, 0, 0, 0, 0], Reason::UnmappedId),
        ([8, 0, 0x17, 0, 0, 0, 0, 0, 0], Reason::UnknownType),
        ([0x1f, 0, 0x37, 0, 6, 0, 0, 0, 6], Reason::MissingStream),
    ];
    for (entry, reason) in &table {
        let bent = changed(&rt, &file, 2592, entry)?;
        refuse(&rt, "to-tnef", &bent, *reason, 2592)?;
    }
    Ok(())
}

#[test]
fn an_empty_text_without_a_stream(rt: HostRuntime) -> Result<(), Fail> {
    let file = file_of(&rt, "to-msg", &ONE_PROPERTY)?;
    let empty = changed(&rt, &file, 2592, &[0x1f, 0, 0x37, 0, 6, 0, 0, 0, 2])?;
    let list = [
        1, 0, 0, 0, 0x1f, 0, 0x37, 0, 1, 0, 0, 0, 2, 0, 0, 0, 0, 0, 0, 0,
    ];
    write(&rt, "to-tnef", &empty, &listed(&rt, &list)?)
}

/// A stream with two properties that are named 820D and 820E.
fn with_two_names(rt: &HostRuntime) -> Result<Vec<u8>, Fail> {
    let mut list = Vec::from_slice(rt.alloc(), &[2, 0, 0, 0])?;
    list.extend_from_slice(&NAMED)?;
    list.extend_from_slice(&[3, 0, 1, 0x80])?;
    list.extend_from_slice(&NAMED[4..24])?;
    list.extend_from_slice(&[0x0e, 0x82, 0, 0, 2, 0, 0, 0])?;
    listed(rt, &list)
}

#[test]
fn names_in_another_order(rt: HostRuntime) -> Result<(), Fail> {
    let stream = with_two_names(&rt)?;
    let mut file = file_of(&rt, "to-msg", &stream)?;
    for (at, byte) in [(2624, 0x0e), (2632, 0x0d), (2850, 1), (2866, 0)] {
        file = changed(&rt, &file, at, &[byte])?;
    }
    write(&rt, "to-msg", &file, &file_of(&rt, "to-msg", &stream)?)?;
    write(&rt, "to-tnef", &file, &stream)
}

#[test]
fn two_ids_of_one_name(rt: HostRuntime) -> Result<(), Fail> {
    let file = file_of(&rt, "to-msg", &with_two_names(&rt)?)?;
    let bent = changed(&rt, &file, 2632, &[0x0d])?;
    refuse(&rt, "to-tnef", &bent, Reason::DuplicateProperty, 2864)
}
