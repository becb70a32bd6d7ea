//! What the sectors of a file are.
use crate::files::{Row, THREE, file_of};
use carrier_io::{Blob, Stop, Walk};
use cfb_sectors::{Sectors, StreamView, file_offset};
use std::alloc::Global;
use std::test::*;

/// The first bytes of entry 5's stream.
const FIRST: Row<'static> = (2560, &[0x0403_0201]);

/// The sectors of a file, loaded by a walk.
fn loaded<'f>(alloc: Global, bytes: &'f [u8], walk: &mut Walk) -> Result<Sectors<'f>, Stop> {
    if bytes.len() > 3072 {
        return Err(Stop::NoMemory);
    }
    Sectors::load(alloc, bytes, walk)
}

/// The stream of entry 5 of a file.
fn claimed<'f>(alloc: Global, bytes: &'f [u8], walk: &mut Walk) -> Result<StreamView<'f>, Stop> {
    let mut sectors = loaded(alloc, bytes, walk)?;
    if sectors.entries() < 6 {
        return Err(Stop::NoMemory);
    }
    sectors.claim(alloc, 5, walk)
}

/// How many entries there are, how many words in each table, and the size and the place of entry 5.
fn numbers(sectors: &Sectors<'_>) -> Result<[u64; 5], Fail> {
    if sectors.entries() < 6 {
        return Err("no entry")?;
    }
    Ok([
        u64::from(sectors.entries()),
        u64::from(sectors.table().len()),
        u64::from(sectors.mini_table().len()),
        sectors.entry(5).size,
        sectors.entry_offset(5),
    ])
}

#[test]
fn tables(rt: HostRuntime) -> Result<(), Fail> {
    let file = file_of(rt.alloc(), &THREE, &[FIRST])?;
    let mut walk = Walk::new();
    let sectors = loaded(rt.alloc(), &file, &mut walk)?;
    assert_eq!(rt; walk.count(), 4);
    assert_eq!(rt; numbers(&sectors)?, [8, 128, 128, 32, 1664]);
    Ok(())
}

/// Fields of a view: a byte, numbers of three, two, four and eight bytes, and a place in the file.
fn fields(view: &StreamView<'_>) -> Result<[u64; 6], Fail> {
    if view.len() != 32 {
        return Err("a length")?;
    }
    Ok([
        u64::from(view.byte(1)),
        view.number(1, 3),
        u64::from(view.u16_at(1)),
        u64::from(view.u32_at(0)),
        view.u64_at(2),
        file_offset(view, 1) as u64,
    ])
}

/// The lengths of parts of a view, and how many pieces its front has.
fn parts(view: &StreamView<'_>) -> Result<[usize; 4], Fail> {
    if view.len() != 32 {
        return Err("a length")?;
    }
    let first = view.prefix(2)?;
    Ok([
        view.rest(30).len(),
        view.copy()?.len(),
        first.len(),
        first.pieces(),
    ])
}

#[test]
fn streams(rt: HostRuntime) -> Result<(), Fail> {
    let file = file_of(rt.alloc(), &THREE, &[FIRST])?;
    let mut walk = Walk::new();
    let view = claimed(rt.alloc(), &file, &mut walk)?;
    assert_eq!(rt; walk.count(), 5);
    assert_eq!(rt;
        fields(&view)?,
        [2, 0x04_0302, 0x0302, 0x0403_0201, 0x0403, 2561]
    );
    assert_eq!(rt; parts(&view)?, [2, 32, 2, 1]);
    assert_eq!(rt; StreamView::empty(rt.alloc()).len(), 0);
    Ok(())
}

/// The four bytes at a place of entry 5's stream, and the number in them.
fn four_bytes(alloc: Global, bytes: &[u8], at: usize) -> Result<([u8; 4], u32), Fail> {
    let view = claimed(alloc, bytes, &mut Walk::new())?;
    if at > 64 || view.len() < 68 {
        return Err("short")?;
    }
    let mut field = [0; 4];
    view.copy_range(at, &mut field);
    Ok((field, view.u32_at(at)))
}

/// Two mini sectors that fall: the stream begins in the second.
const FALLING: [Row<'static>; 5] = [
    (1144, &[128]),
    (1780, &[1, 68]),
    (2052, &[0]),
    (2684, &[0x0605_0000]),
    FIRST,
];

#[test]
fn across_pieces(rt: HostRuntime) -> Result<(), Fail> {
    let file = file_of(rt.alloc(), &THREE, &FALLING)?;
    let (field, number) = four_bytes(rt.alloc(), &file, 62)?;
    assert_eq!(rt; field, [5, 6, 1, 2]);
    assert_eq!(rt; number, 0x0201_0605);
    Ok(())
}
