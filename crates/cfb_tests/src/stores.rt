use crate::directory::refusal_of;
use crate::files::{END, FREE, Row, put, put_rows};
use carrier_io::{Blob, Fault, Reason, Stop, Walk};
use cfb_directory::open_files;
use cfb_sectors::StreamView;
use msg_tree::{Member, Store};
use ole_stores::{read_store, read_store_file};
use std::alloc::{AllocError, Global};
use std::test::*;

/// What the header of either version says.
const HEADER: [Row<'static>; 4] = [
    (0, &[0xE011_CFD0, 0xE11A_B1A1]),
    (32, &[6]),
    (44, &[1, 1, 0, 4096, END]),
    (68, &[END]),
];

/// What the header of version 3 says and its table, whose directory has nine sectors.
const THIRD: [Row<'static>; 2] = [
    (24, &[0x0003_003E, 0x0009_FFFE]),
    (512, &[0xFFFF_FFFD, 2, 3, 4, 5, 6, 7, 8, 9, END]),
];

/// What the header of version 4 says and its table, whose directory has one sector.
const FOURTH: [Row<'static>; 3] = [
    (24, &[0x0004_003E, 0x000C_FFFE]),
    (40, &[1]),
    (4096, &[0xFFFF_FFFD, END]),
];

/// A root and so many storages, each in the one before, all of the name `a`.
fn put_storages(file: &mut [u8], directory: u16, storages: u8) {
    for k in 0..=u16::from(storages) {
        let at = usize::from(directory) + 128 * usize::from(k);
        let kind = if k == 0 { 0x0105_0004 } else { 0x0101_0004 };
        let child = if k < u16::from(storages) {
            u32::from(k) + 1
        } else {
            FREE
        };
        put(file, at, &[0x61]);
        put(file, at + 64, &[kind, FREE, FREE, child]);
    }
}

/// A file of version 3 with at most 35 storages, each in the one before, where some numbers were changed.
fn nested(alloc: Global, storages: u8, changes: &[Row<'_>]) -> Result<Vec<u8>, AllocError> {
    let mut file = vec![in alloc; 0; 5632]?;
    put_rows(&mut file, &HEADER);
    put_rows(&mut file, &THIRD);
    put_storages(&mut file, 1024, storages);
    put_rows(&mut file, changes);
    Ok(file)
}

/// A file of version 4 with one storage.
fn nested4(alloc: Global) -> Result<Vec<u8>, AllocError> {
    let mut file = vec![in alloc; 0; 12_288]?;
    put_rows(&mut file, &HEADER);
    put_rows(&mut file, &FOURTH);
    put_storages(&mut file, 8192, 1);
    Ok(file)
}

#[test]
fn storages_101_deep(rt: HostRuntime) -> Result<(), Fail> {
    let mut file = vec![in rt.alloc(); 0; 14_336]?;
    put_rows(&mut file, &HEADER);
    put_rows(&mut file, &THIRD);
    // The directory has 26 sectors.
    for sector in 9..26 {
        put(&mut file, 512 + 4 * sector, &[sector as u32 + 1]);
    }
    put(&mut file, 616, &[END]);
    put_storages(&mut file, 1024, 101);
    let end = refusal_of(rt.alloc(), &file)?;
    assert_eq!(rt; end, Some((Reason::StorageTooDeep, 14_018)));
    Ok(())
}

/// What is not so fails the test.
fn holds(fact: bool, what: &'static str) -> Result<(), Fail> {
    if fact { Ok(()) } else { Err(what.into()) }
}

/// Bytes that begin at 121 have to be refused for the reason at the offset.
fn refused(alloc: Global, bytes: &[u8], reason: Reason, offset: u64) -> Result<(), Fail> {
    if bytes.len() > 12_288 {
        return Err("too long".into());
    }
    let end = read_store_file(alloc, bytes, 121).err();
    holds(
        end == Some(Stop::Fault(Fault { reason, offset })),
        "another end",
    )
}

#[test]
fn faults_of_files(rt: HostRuntime) -> Result<(), Fail> {
    let alloc = rt.alloc();
    let deep = nested(alloc, 33, &[])?;
    refused(alloc, &deep, Reason::StoreTooDeep, 5435)?;
    let double = nested(alloc, 2, &[(1224, &[2, FREE])])?;
    refused(alloc, &double, Reason::DoubleName, 1401)?;
    let other = nested(alloc, 0, &[(24, &[0x0004_003E])])?;
    refused(alloc, &other, Reason::BadHeader, 151)?;
    refused(alloc, &[], Reason::FileTruncated, 121)
}

/// The store of a file has to have so many members.
fn counted(alloc: Global, bytes: &[u8], count: usize) -> Result<(), Fail> {
    if bytes.len() > 12_288 {
        return Err("too long".into());
    }
    let store = read_store_file(alloc, bytes, 0)?;
    holds(store.len() == count, "other members")
}

#[test]
fn stores_of_files(rt: HostRuntime) -> Result<(), Fail> {
    let alloc = rt.alloc();
    counted(alloc, &nested(alloc, 0, &[])?, 0)?;
    counted(alloc, &nested(alloc, 32, &[])?, 1)?;
    counted(alloc, &nested4(alloc)?, 1)
}

/// A root with a class, and in it an empty stream and an empty storage.
const MEMBERS: [Row<'static>; 4] = [
    (1104, &[0x1234_5678]),
    (1152, &[0x62]),
    (1224, &[2, FREE]),
    (1344, &[0x0102_0004]),
];

const CLASS: [u8; 16] = [0x78, 0x56, 0x34, 0x12, 0, 0, 0, 0, 0, 0, 0, 0, 0, 0, 0, 0];

/// Whether a member is empty, and a storage or not.
fn is_empty(member: &Member<StreamView<'_>>, storage: bool) -> bool {
    match member {
        Member::Stream(view) => !storage && view.len() == 0,
        Member::Storage(inner) => storage && inner.len() == 0,
    }
}

/// Whether a store is that root.
fn is_root(store: &Store<StreamView<'_>>) -> bool {
    store.class() == CLASS
        && store.len() == 2
        && store.name(0) == [0x61u16].as_slice()
        && is_empty(store.member(0), false)
        && is_empty(store.member(1), true)
}

#[test]
fn members_of_a_root(rt: HostRuntime) -> Result<(), Fail> {
    let file = nested(rt.alloc(), 2, &MEMBERS)?;
    assert!(rt; file.len() <= 12_288);
    let files = open_files(rt.alloc(), &file, &mut Walk::new())?;
    let store = read_store(rt.alloc(), &files, files.root())?;
    holds(is_root(&store), "another store")
}
