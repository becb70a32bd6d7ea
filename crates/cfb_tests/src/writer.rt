//! What a list of storages and streams is written as.
ghost use Rattle.std.specs.Prelude.{◌≡◌, length, IfOk};

use crate::files::{END, FOUR, FREE, Layout, Row, THREE, file_of, filled, put, put_names};
use carrier_io::{Blob, MemorySink, NoMemory, u32_at, write_gathered};
use cfb_writer::{Content, FileList, Plan, Version};
use std::alloc::Global;
use std::cell::Cell;
use std::test::*;

/// The files of a message whose property stream has these bytes.
fn message<'t, B: Blob>(alloc: Global, properties: Vec<u8>) -> Result<FileList<'t, B>, NoMemory>
    ensures { IfOk result (λ list. length list.storages ≡ 2) }
{
    let mut list = FileList::new(alloc)?;
    list.add_stream(0, "__properties_version1.0", Content::Own(properties))?;
    let map = list.add_storage(0, "__nameid_version1.0")?;
    list.add_stream(map, "__substg1.0_00040102", Content::Own(Vec::new(alloc)))?;
    list.add_stream(map, "__substg1.0_00020102", Content::Own(Vec::new(alloc)))?;
    list.add_stream(map, "__substg1.0_00030102", Content::Own(Vec::new(alloc)))?;
    Ok(list)
}

/// The sum of bytes modulo 65,536.
fn sum_of(bytes: &[u8]) -> u16 {
    let mut sum = 0u16;
    for byte in bytes {
        sum = sum.wrapping_add(u16::from(*byte));
    }
    sum
}

/// Whether the size, the bytes and the sum of a list's file are those of these bytes.
fn is_written<'t, B: Blob>(
    alloc: Global,
    version: Version,
    list: FileList<'t, B>,
    expected: &[u8],
) -> Result<[bool; 3], Fail> {
    let plan = Plan::new(alloc, version, list)?;
    let mut sink = MemorySink::new(alloc, 20_480, Vec::new(alloc))?;
    plan.write(&mut sink)?;
    Ok([
        plan.size() == expected.len() as u64,
        sink.bytes() == expected,
        plan.sum() == sum_of(expected),
    ])
}

/// Whether the smallest message is written as the file of a layout.
fn is_smallest(alloc: Global, version: Version, layout: &Layout) -> Result<[bool; 3], Fail> {
    let list: FileList<'static, Vec<u8>> = message(alloc, vec![in alloc; 0; 32]?)?;
    is_written(alloc, version, list, &file_of(alloc, layout, &[])?)
}

#[test]
fn the_smallest_files(rt: HostRuntime) -> Result<(), Fail> {
    assert_eq!(rt; is_smallest(rt.alloc(), Version::Three, &THREE)?, [true; 3]);
    assert_eq!(rt; is_smallest(rt.alloc(), Version::Four, &FOUR)?, [true; 3]);
    Ok(())
}

/// A file of version 3 with an empty storage: the header, the table, and the root, the storage and two unused entries.
const STORAGE: [Row<'static>; 11] = [
    (0, &[0xE011_CFD0, 0xE11A_B1A1]),
    (24, &[0x0003_003E, 0x0009_FFFE, 6]),
    (44, &[1, 1, 0, 4096, END, 0, END, 0, 0]),
    (512, &[0xFFFF_FFFD, END]),
    (1088, &[0x0105_0016, FREE, FREE, 1]),
    (1104, &[0x0909_0909, 0x0909_0909, 0x0909_0909, 0x0909_0909]),
    (1140, &[END]),
    (1216, &[0x0101_0004, FREE, FREE, FREE]),
    (1232, &[0x0403_0201, 0x0807_0605, 0x0C0B_0A09, 0x100F_0E0D]),
    (1348, &[FREE, FREE, FREE]),
    (1476, &[FREE, FREE, FREE]),
];

#[test]
fn an_empty_storage_with_a_class(rt: HostRuntime) -> Result<(), Fail> {
    let class = [1, 2, 3, 4, 5, 6, 7, 8, 9, 10, 11, 12, 13, 14, 15, 16];
    let mut list: FileList<'static, Vec<u8>> = FileList::new(rt.alloc())?;
    list.set_root_class([9; 16]);
    list.add_named_storage(0, &[65], class)?;
    let grounds = [(80, 0), (1024, 0xFF), (1536, 0)];
    let mut file = filled(rt.alloc(), &grounds, &STORAGE)?;
    put_names(&mut file, &[(1024, "Root Entry"), (1152, "A")]);
    let same = is_written(rt.alloc(), Version::Three, list, &file)?;
    assert_eq!(rt; same, [true; 3]);
    Ok(())
}

/// A file of version 3 with two streams of a row: the header, the table, the root and its streams with an unused entry, the
/// mini FAT and the mini stream. The streams have two bytes and one.
const ROW: [Row<'static>; 13] = [
    (0, &[0xE011_CFD0, 0xE11A_B1A1]),
    (24, &[0x0003_003E, 0x0009_FFFE, 6]),
    (44, &[1, 1, 0, 4096, 2, 1, END, 0, 0]),
    (512, &[0xFFFF_FFFD, END, END, END]),
    (1088, &[0x0105_0016, FREE, FREE, 1]),
    (1104, &[0x0002_0D0B, 0, 0xC0, 0x4600_0000]),
    (1140, &[3, 128]),
    (1216, &[0x0102_0016, FREE, 2, FREE]),
    (1268, &[0, 2]),
    (1344, &[0x0102_0016, FREE, FREE, FREE]),
    (1396, &[1, 1]),
    (1476, &[FREE, FREE, FREE]),
    (1536, &[END, END]),
];

#[test]
fn a_row_of_streams(rt: HostRuntime) -> Result<(), Fail> {
    let alloc = rt.alloc();
    let values = [vec![in alloc; 0xAB; 1]?, Vec::new(alloc)];
    let mut list = FileList::new(alloc)?;
    list.add_row(0, "R-", &values, 1)?;
    let grounds = [(80, 0), (1024, 0xFF), (1536, 0), (2048, 0xFF), (2560, 0)];
    let mut file = filled(alloc, &grounds, &ROW)?;
    put_names(
        &mut file,
        &[
            (1024, "Root Entry"),
            (1152, "R-00000000"),
            (1280, "R-00000001"),
        ],
    );
    put(&mut file, 2048, &[0xAB]);
    assert_eq!(rt; is_written(alloc, Version::Three, list, &file)?, [true; 3]);
    Ok(())
}

/// A file of version 3 with a storage in which an empty stream is, both with numbers in their names: the header, the table,
/// and the root, the storage, the stream and an unused entry.
const NUMBERED: [Row<'static>; 11] = [
    (0, &[0xE011_CFD0, 0xE11A_B1A1]),
    (24, &[0x0003_003E, 0x0009_FFFE, 6]),
    (44, &[1, 1, 0, 4096, END, 0, END, 0, 0]),
    (512, &[0xFFFF_FFFD, END]),
    (1088, &[0x0105_0016, FREE, FREE, 1]),
    (1104, &[0x0002_0D0B, 0, 0xC0, 0x4600_0000]),
    (1140, &[END]),
    (1216, &[0x0101_0016, FREE, FREE, 2]),
    (1344, &[0x0102_0016, FREE, FREE, FREE]),
    (1396, &[END]),
    (1476, &[FREE, FREE, FREE]),
];

#[test]
fn numbers_in_names(rt: HostRuntime) -> Result<(), Fail> {
    let alloc = rt.alloc();
    let mut list: FileList<'static, Vec<u8>> = FileList::new(alloc)?;
    let storage = list.add_numbered_storage(0, &[83, 45], 10)?;
    list.add_numbered_stream(storage, &[86, 45], 11, Content::Own(Vec::new(alloc)))?;
    let grounds = [(80, 0), (1024, 0xFF), (1536, 0)];
    let mut file = filled(alloc, &grounds, &NUMBERED)?;
    put_names(
        &mut file,
        &[
            (1024, "Root Entry"),
            (1152, "S-0000000A"),
            (1280, "V-0000000B"),
        ],
    );
    assert_eq!(rt; is_written(alloc, Version::Three, list, &file)?, [true; 3]);
    Ok(())
}

/// Bytes that count how often a piece of them was asked for.
#[derive(Drop)]
struct Counted {
    bytes: Vec<u8>,
    asked: Cell<u32>,
}

impl Blob for Counted {
    ghost use Rattle.std.specs.Prelude.{refl};

    ghost bytes = { λ c. c.bytes.items };

    ghost count = { λ _. 1 };

    ghost part = { λ c _. c.bytes.items };

    ghost joins = { λ _. refl };

    fn len(&self) -> usize {
        self.bytes.len()
    }

    fn pieces(&self) -> usize {
        1
    }

    fn piece(&self, _k: usize) -> &[u8] {
        self.asked.set(self.asked.get().saturating_add(1));
        self.bytes.as_slice()
    }
}

/// The plan of a message with a value in a stream.
fn plan_of<'t>(alloc: Global, value: &'t Counted) -> Result<Plan<'t, Counted>, Fail> {
    let mut list = message(alloc, vec![in alloc; 0; 48]?)?;
    let content = Content::Value {
        bytes: value,
        zeros: 0,
    };
    list.add_named_stream(0, &[120], content)?;
    Ok(Plan::new(alloc, Version::Three, list)?)
}

/// What a plan writes in large pieces.
fn gathered<B: Blob>(alloc: Global, plan: &Plan<'_, B>) -> Result<Vec<u8>, Fail> {
    let mut sink = MemorySink::new(alloc, 8_062_464, Vec::new(alloc))?;
    write_gathered(plan, &mut sink)?;
    Ok(sink.bytes().to_vec(alloc)?)
}

/// How many sectors the table has, where its list begins and how many sectors that has, and the list's first and last word.
fn words_in(bytes: &[u8]) -> Result<[u32; 5], Fail> {
    if bytes.len() != 8_062_464 {
        return Err("a length")?;
    }
    Ok([
        u32_at(bytes, 44),
        u32_at(bytes, 68),
        u32_at(bytes, 72),
        u32_at(bytes, 64_000),
        u32_at(bytes, 64_508),
    ])
}

/// Whether a plan fails where there is room for 1,000,000 bytes, and these are its front.
fn fails_behind<B: Blob>(alloc: Global, plan: &Plan<'_, B>, front: &[u8]) -> Result<bool, Fail> {
    let mut small = MemorySink::new(alloc, 1_000_000, Vec::new(alloc))?;
    Ok(plan.write(&mut small).is_err() && small.bytes() == front)
}

#[test]
fn a_long_value(rt: HostRuntime) -> Result<(), Fail> {
    let value = Counted {
        bytes: vec![in rt.alloc(); 0; 7_995_904]?,
        asked: Cell::new(0),
    };
    let plan = plan_of(rt.alloc(), &value)?;
    assert_eq!(rt; plan.size(), 8_062_464);
    let before = value.asked.get();
    let bytes = gathered(rt.alloc(), &plan)?;
    assert!(rt; value.asked.get() > before);
    assert_eq!(rt; words_in(&bytes)?, [124, 124, 1, 109, END]);
    let front = bytes.get(..1_000_000).ok_or("so many")?;
    assert!(rt; fails_behind(rt.alloc(), &plan, front)?);
    Ok(())
}
