use carrier_io::MemorySink;
use msg_tree::{Member, Store};
use ole_stores::store_plan;
use std::test::*;

/// A class of which no two bytes are equal.
const CLASS: [u8; 16] = [0, 1, 2, 3, 4, 5, 6, 7, 8, 9, 10, 11, 12, 13, 14, 15];

/// Places, and the bytes that the store's file has there.
const PARTS: [(usize, &[u8]); 4] = [
    (1104, &CLASS),
    (1360, &[5; 16]),
    (2048, b"abc"),
    (2560, b"xxx"),
];

fn has_parts(file: &[u8]) -> Result<(), Fail> {
    for (at, part) in PARTS {
        if !file.get(at..).ok_or("a place")?.starts_with(part) {
            return Err("another part")?;
        }
    }
    Ok(())
}

#[test]
fn a_store_is_written(rt: HostRuntime) -> Result<(), Fail> {
    let alloc = rt.alloc();
    let mut inner = Store::new(alloc, [5; 16]);
    let mut long = Vec::new(alloc);
    long.resize(5000, b'x')?;
    inner
        .insert(&[98], Member::Stream(long))
        .ok()
        .ok_or("a member")?;
    let mut store = Store::new(alloc, CLASS);
    store
        .insert(&[65, 66], Member::Storage(inner))
        .ok()
        .ok_or("a member")?;
    let short = Vec::from_slice(alloc, b"abc")?;
    store
        .insert(&[97], Member::Stream(short))
        .ok()
        .ok_or("a member")?;
    let plan = store_plan(alloc, &store)?;
    assert_eq!(rt; plan.size(), 7680);
    assert_eq!(rt; plan.sum(), 58811);
    let mut sink = MemorySink::new(alloc, 7680, Vec::new(alloc))?;
    assert!(rt; plan.write(&mut sink).is_ok());
    has_parts(sink.bytes())
}
