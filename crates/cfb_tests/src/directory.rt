//! What the storages and streams of a file are, and what a file is refused for.
use crate::files::{END, FOUR, FREE, Layout, Row, THREE, file_of, put, put_rows, put_word};
use carrier_io::{Blob, Reason, Stop, Walk};
use cfb_directory::{Files, open_files};
use std::alloc::{AllocError, Global};
use std::test::*;

const PROPERTIES: &str = "__properties_version1.0";

/// The files of a compound file, opened by a walk.
fn opened<'f>(alloc: Global, bytes: &'f [u8], walk: &mut Walk) -> Result<Files<'f>, Fail> {
    if bytes.len() > 2_581_504 {
        return Err("too long")?;
    }
    Ok(open_files(alloc, bytes, walk)?)
}

/// What bytes are refused for as a compound file.
pub fn refusal_of(alloc: Global, bytes: &[u8]) -> Result<Option<(Reason, u64)>, Fail> {
    if bytes.len() > 20_480 {
        return Err("too long")?;
    }
    match open_files(alloc, bytes, &mut Walk::new()) {
        Ok(_) => Ok(None),
        Err(Stop::Fault(fault)) => Ok(Some((fault.reason, fault.offset))),
        Err(Stop::NoMemory) => Err("memory")?,
    }
}

/// What the first so many bytes of a layout's file are refused for, after changes.
fn refusal(
    alloc: Global,
    layout: &Layout,
    changes: &[Row<'_>],
    len: usize,
) -> Result<Option<(Reason, u64)>, Fail> {
    let file = file_of(alloc, layout, changes)?;
    let bytes = file.get(..len).ok_or("too short")?;
    refusal_of(alloc, bytes)
}

/// What was changed in a file, how many of its bytes there are, and what it is refused for.
type Refusal = (&'static [Row<'static>], usize, Option<(Reason, u64)>);

/// One number that was changed in a whole file of version 3, and what the file is refused for.
const CHANGES: [(Row<'static>, Reason, u64); 28] = [
    ((4, &[0xE11A_B1A0]), Reason::BadFileSignature, 0),
    ((28, &[0x0009_FEFF]), Reason::BadHeader, 28),
    ((32, &[7]), Reason::BadHeader, 32),
    ((56, &[4095]), Reason::BadHeader, 56),
    ((1220, &[1]), Reason::EntryShared, 1220),
    ((1224, &[8]), Reason::EntryOutOfRange, 1224),
    ((1728, &[0x0105_0030]), Reason::BadEntryType, 1730),
    ((1088, &[0x0101_0016]), Reason::BadEntryType, 1090),
    ((1564, &[0x0033_0030]), Reason::DoubleName, 1536),
    ((1728, &[0x0102_0003]), Reason::BadName, 1728),
    ((24, &[0x0005_003E]), Reason::BadVersion, 26),
    ((24, &[0x0004_003E]), Reason::BadHeader, 30),
    ((28, &[0x000C_FFFE]), Reason::BadHeader, 30),
    ((44, &[0]), Reason::BadFatCount, 44),
    ((44, &[6]), Reason::BadFatCount, 44),
    ((76, &[5]), Reason::SectorOutOfRange, 76),
    ((48, &[0]), Reason::Shared, 48),
    ((48, &[END]), Reason::ShortChain, 48),
    ((60, &[1]), Reason::Shared, 60),
    ((1140, &[3]), Reason::Shared, 1140),
    ((520, &[1]), Reason::Cycle, 520),
    ((524, &[3]), Reason::Cycle, 524),
    ((528, &[2]), Reason::Shared, 528),
    ((528, &[5]), Reason::SectorOutOfRange, 528),
    ((1780, &[1]), Reason::SectorOutOfRange, 1780),
    ((2048, &[0]), Reason::Cycle, 2048),
    ((1784, &[65]), Reason::ShortChain, 2048),
    ((1144, &[1024]), Reason::ShortChain, 528),
];

/// Files of version 3 that were changed in more than one place, or cut, or are none the worse.
const OF_THREE: [Refusal; 6] = [
    (&[(1396, &[0, 1])], 3072, Some((Reason::Shared, 1780))),
    (
        &[(1144, &[48]), (1784, &[64])],
        3072,
        Some((Reason::FileTruncated, 1784)),
    ),
    (&[], 511, Some((Reason::FileTruncated, 511))),
    (&[], 2623, Some((Reason::FileTruncated, 1144))),
    (&[], 2624, None),
    (&[(1788, &[1])], 3072, None),
];

/// Files of version 4.
const OF_FOUR: [Refusal; 8] = [
    (&[], 20_480, None),
    (&[(4100, &[1])], 20_480, Some((Reason::Cycle, 4100))),
    (&[(8956, &[1])], 20_480, Some((Reason::Shared, 8948))),
    (
        &[(28, &[0x0009_FFFE])],
        20_480,
        Some((Reason::BadHeader, 30)),
    ),
    (
        &[(24, &[0x0005_003E])],
        20_480,
        Some((Reason::BadVersion, 26)),
    ),
    (&[(32, &[6])], 4096, Some((Reason::BadFatCount, 44))),
    (&[(32, &[6])], 4000, Some((Reason::BadFatCount, 44))),
    (&[(32, &[6])], 511, Some((Reason::FileTruncated, 511))),
];

#[test]
fn refusals_of_one_number(rt: HostRuntime) -> Result<(), Fail> {
    for (change, reason, offset) in CHANGES {
        let end = refusal(rt.alloc(), &THREE, &[change], 3072)?;
        assert_eq!(rt; end, Some((reason, offset)));
    }
    Ok(())
}

/// Each of the files of a layout has to end as the table says.
fn end_so(alloc: Global, layout: &Layout, table: &[Refusal]) -> Result<(), Fail> {
    for (changes, len, end) in table {
        if refusal(alloc, layout, changes, *len)? != *end {
            return Err("another end")?;
        }
    }
    Ok(())
}

#[test]
fn refusals(rt: HostRuntime) -> Result<(), Fail> {
    end_so(rt.alloc(), &THREE, &OF_THREE)?;
    end_so(rt.alloc(), &FOUR, &OF_FOUR)
}

/// The class of the root and of the storage of the names.
fn classes_of(files: &Files<'_>) -> Option<([u8; 16], [u8; 16])> {
    let names = files.storage(files.root(), "__nameid_version1.0")?;
    Some((files.class(files.root()), files.class(names)))
}

/// The length of the stream that is the root's child of this number.
fn child_len(files: &Files<'_>, number: usize) -> Option<usize> {
    Some(files.child_stream(files.root(), number)?.len())
}

#[test]
fn classes(rt: HostRuntime) -> Result<(), Fail> {
    let words: [Row<'_>; 2] = [(8272, &[0x0002_0D0B, 0, 0, 0]), (8412, &[0x4600_0000])];
    let file = file_of(rt.alloc(), &FOUR, &words)?;
    let files = opened(rt.alloc(), &file, &mut Walk::new())?;
    let root = [0x0B, 0x0D, 2, 0, 0, 0, 0, 0, 0, 0, 0, 0, 0, 0, 0, 0];
    let names = [0, 0, 0, 0, 0, 0, 0, 0, 0, 0, 0, 0, 0, 0, 0, 0x46];
    assert_eq!(rt; classes_of(&files), Some((root, names)));
    assert_eq!(rt;
        (
            child_len(&files, 0),
            child_len(&files, 1),
            child_len(&files, 2)
        ),
        (None, Some(32), None)
    );
    Ok(())
}

/// The file offsets of the storage of the names, and of the size of the property stream.
fn offsets(files: &Files<'_>) -> Option<(u64, u64)> {
    let names = files.storage(files.root(), "__NameID_version1.0")?;
    let size = files.size_offset(files.root(), PROPERTIES)?;
    Some((files.storage_offset(names), size))
}

/// How long the name of the root's child of this number is, and whether that is a storage.
fn child_of(files: &Files<'_>, number: usize) -> Option<(usize, bool)> {
    let child = files.child(files.root(), number)?;
    Some((child.units.len(), child.storage.is_some()))
}

#[test]
fn lookups(rt: HostRuntime) -> Result<(), Fail> {
    let file = file_of(rt.alloc(), &THREE, &[])?;
    let mut walk = Walk::new();
    let files = opened(rt.alloc(), &file, &mut walk)?;
    assert_eq!(rt; (walk.count(), offsets(&files)), (5, Some((1152, 1784))));
    assert_eq!(rt;
        (
            child_of(&files, 0),
            child_of(&files, 1),
            child_of(&files, 2)
        ),
        (Some((19, true)), Some((23, false)), None)
    );
    assert!(rt; files.stream(files.root(), "__substg1.0_00020102").is_none());
    Ok(())
}

/// The first piece of the property stream, which outlives the files.
fn first_piece<'f>(files: &Files<'f>) -> Option<&'f [u8]> {
    let view = files.stream(files.root(), PROPERTIES)?;
    if view.pieces() == 0 {
        return None;
    }
    Some(view.slice(0))
}

#[test]
fn views(rt: HostRuntime) -> Result<(), Fail> {
    let words: [Row<'_>; 2] = [(1784, &[48]), (2592, &[0x0017_0003, 6, 2, 0])];
    let file = file_of(rt.alloc(), &THREE, &words)?;
    let files = opened(rt.alloc(), &file, &mut Walk::new())?;
    let found = first_piece(&files);
    drop(files);
    let piece = found.ok_or("no piece")?;
    assert_eq!(rt; piece.len(), 48);
    assert_eq!(rt;
        piece.get(32..),
        Some(b"\x03\0\x17\0\x06\0\0\0\x02\0\0\0\0\0\0\0".as_slice())
    );
    Ok(())
}

/// How many bytes the property stream has, and the view of its first 64.
fn lengths(files: &Files<'_>) -> Option<(usize, usize)> {
    let view = files.stream(files.root(), PROPERTIES)?;
    if view.len() < 64 {
        return None;
    }
    Some((view.len(), view.prefix(64).ok()?.len()))
}

#[test]
fn fronts(rt: HostRuntime) -> Result<(), Fail> {
    let words: [Row<'_>; 3] = [(1144, &[128]), (1784, &[65]), (2048, &[1, END])];
    let file = file_of(rt.alloc(), &THREE, &words)?;
    let files = opened(rt.alloc(), &file, &mut Walk::new())?;
    assert_eq!(rt; lengths(&files), Some((65, 64)));
    Ok(())
}

/// The header of a file whose table has 40 sectors, with the directory behind it.
const LONG_HEADER: [Row<'static>; 3] = [
    (0, &[0xE011_CFD0, 0xE11A_B1A1]),
    (24, &[0x0003_003E, 0x0009_FFFE, 6, 0, 0, 40, 40, 0, 4096]),
    (512, &[0xFFFF_FFFD; 40]),
];

/// The root's kind, its child and the last entry's left link, in a directory of 20,001 entries.
const LONG_ENDS: [Row<'static>; 4] = [
    (512 + 4 * 5040, &[END]),
    (20_992 + 64, &[0x0105_0016]),
    (20_992 + 76, &[1]),
    (20_992 + 128 * 20_000 + 68, &[FREE]),
];

/// Writes the numbers from the first up to the last.
fn put_numbers(part: &mut [u8], first: u32, last: u32) {
    for (slot, number) in part.chunks_mut(4).zip(first..=last) {
        put_word(slot, number);
    }
}

/// Writes empty streams, each of which has the next one as its left link.
fn put_streams(directory: &mut [u8]) {
    for (entry, k) in directory.chunks_mut(128).zip(0..20_001u32) {
        put(entry, 0, &[k.saturating_add(0x1000)]);
        put(entry, 64, &[0x0102_0004, k.saturating_add(1), FREE, FREE]);
    }
}

/// A file whose root has so many empty streams in one row of left links.
fn long_row(alloc: Global) -> Result<Vec<u8>, AllocError> {
    let mut file = vec![in alloc; 0; 2_581_504]?;
    put_rows(&mut file, &LONG_HEADER);
    if file.len() > 20_992 {
        put_numbers(&mut file[76..], 0, 39);
        put_numbers(&mut file[512 + 160..], 41, 5040);
        put_streams(&mut file[20_992..]);
    }
    put_rows(&mut file, &LONG_ENDS);
    Ok(file)
}

#[test]
fn row_of_links(rt: HostRuntime) -> Result<(), Fail> {
    let file = long_row(rt.alloc())?;
    let files = opened(rt.alloc(), &file, &mut Walk::new())?;
    assert!(rt; files.child(files.root(), 19_999).is_some());
    assert!(rt; files.child(files.root(), 20_000).is_none());
    Ok(())
}
