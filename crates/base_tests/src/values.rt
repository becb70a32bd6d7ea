ghost use Rattle.std.specs.Prelude.{◌<◌, ◌^◌, length};

use crate::halves::Halves;
use carrier_io::{Blob, same_bytes};
use prop_names::{Guid, Key};
use prop_values::compare::{same_prop, same_props};
use prop_values::{
    Arrivals, Guids, InsertEnd, Kind, Parts, Prop, Props, SettleEnd, Shape, Value, kind_of,
    utf16_bytes,
};
use std::alloc::Global;
use std::cmp::Ordering;
use std::process::Abort;
use std::test::*;

fn integer(id: u16, bits: u64) -> Prop<Vec<u8>>
    requires id { id < 0x8000 }
    requires bits { bits < 2 ^ 32 }
{
    Prop {
        key: Key::Id(id),
        value: Value::Number {
            kind: Kind::Integer32,
            bits,
        },
    }
}

fn binary<B: Blob>(id: u16, bytes: B) -> Prop<B>
    requires id { id < 0x8000 }
    requires short { length (B.bytes bytes) < 0x4000_0000 }
{
    Prop {
        key: Key::Id(id),
        value: Value::Bytes {
            kind: Kind::Binary,
            bytes,
        },
    }
}

#[test]
fn a_double_comes_back(rt: HostRuntime) -> Result<(), Fail> {
    let mut list = Props::new(rt.alloc());
    assert!(rt; list.insert_sorted(integer(0x0017, 1)).is_ok());
    let handed_back = match list.insert_sorted(integer(0x0017, 2)) {
        Err(InsertEnd::Duplicate(prop)) => same_prop(&prop, &integer(0x0017, 2)),
        _ => false,
    };
    assert!(rt; handed_back);
    assert!(rt; list.len() == 1 && same_prop(list.get(0), &integer(0x0017, 1)));
    let key = Key::Id(0x0017);
    let found = (
        list.find(&key, Kind::Integer32),
        list.find(&key, Kind::Integer16),
    );
    assert_eq!(rt; found, (Some(0), None));
    assert_eq!(rt; (list.has_id(0x0017), list.has_id(0x0018)), (true, false));
    assert_eq!(rt; list.get(0).order(&integer(0x0018, 0)), Ordering::Less);
    Ok(())
}

#[test]
fn guids(rt: HostRuntime) -> Result<(), Fail> {
    let mut guids = Guids::new(rt.alloc());
    guids.push(Guid([1; 16]))?;
    assert_eq!(rt; guids.len(), 1);
    assert_eq!(rt; *guids.get(0), Guid([1; 16]));
    Ok(())
}

/// What the lists answer on four bytes, whatever blob they are.
fn every_list<B: Blob>(
    rt: &impl Abort,
    alloc: Global,
    part: B,
    value: B,
) -> Result<Props<Vec<u8>>, Fail>
    requires { length (B.bytes value) < 0x4000_0000 }
{
    let mut parts = Parts::new(alloc);
    parts.push(part)?;
    assert_eq!(rt; parts.len(), 1);
    assert!(rt; same_bytes(parts.get(0), &[1u8, 2, 3, 4].as_slice()));
    assert_eq!(rt; parts.as_slice().len(), 1);
    let mut list = Props::new(alloc);
    list.insert_sorted(binary(0x1013, value))
        .ok()
        .ok_or("a value")?;
    assert_eq!(rt; list.find(&Key::Id(0x1013), Kind::Binary), Some(0));
    let copy = list.copy_owned(alloc)?;
    assert!(rt; same_props(&list, &copy));
    Ok(copy)
}

#[test]
fn lists_of_three_blobs(rt: HostRuntime) -> Result<(), Fail> {
    let alloc = rt.alloc();
    let bytes = [1u8, 2, 3, 4];
    let halves = Halves {
        first: &bytes[..1],
        second: &bytes[1..],
    };
    let whole = bytes.as_slice();
    let cut = every_list(&rt, alloc, halves, halves)?;
    let borrowed = every_list(&rt, alloc, whole, whole)?;
    let owned = every_list(&rt, alloc, whole.to_vec(alloc)?, whole.to_vec(alloc)?)?;
    assert!(rt; same_props(&cut, &borrowed));
    assert!(rt; same_props(&cut, &owned));
    Ok(())
}

#[test]
fn kinds(rt: HostRuntime) -> Result<(), Fail> {
    assert_eq!(rt;
        (kind_of(0x101f), kind_of(0x000d)),
        (Some(Kind::MultipleString), None)
    );
    let times = Kind::MultipleTime;
    assert_eq!(rt;
        (times.number(), times.name(), times.width()),
        (0x1040, "MultipleTime", Some(8))
    );
    assert_eq!(rt; Kind::MultipleString.shape(), Shape::Parts(Kind::String));
    assert_eq!(rt;
        (
            Kind::String.null_size(),
            Kind::MultipleString8.part_null_size()
        ),
        (2, 1)
    );
    assert_eq!(rt; Value::<Vec<u8>>::Guid(Guid([0; 16])).kind(), Kind::Guid);
    Ok(())
}

#[test]
fn texts_in_utf16(rt: HostRuntime) -> Result<(), Fail> {
    let bytes = utf16_bytes(rt.alloc(), "A\u{20ac}\u{10000}")?;
    assert_eq!(rt;
        bytes.as_slice(),
        [0x41, 0, 0xac, 0x20, 0, 0xd8, 0, 0xdc].as_slice()
    );
    Ok(())
}

#[test]
fn before_the_object(rt: HostRuntime) -> Result<(), Fail> {
    let mut props = Props::new(rt.alloc());
    for id in [0x3705, 0x3700, 0x3701] {
        props.insert_sorted(integer(id, 1)).ok().ok_or("a number")?;
    }
    assert_eq!(rt; props.count_before_object(), 2);
    Ok(())
}

#[test]
fn arrivals_are_put_in_order(rt: HostRuntime) -> Result<(), Fail> {
    let mut list = Arrivals::new(rt.alloc());
    list.make_room(2);
    list.push(integer(0x0026, 1), 4)?;
    list.push(integer(0x0017, 2), 12)?;
    let props = list.settle()?;
    assert_eq!(rt; props.len(), 2);
    assert!(rt; same_prop(props.get(0), &integer(0x0017, 2)));
    Ok(())
}

#[test]
fn the_first_double_is_told(rt: HostRuntime) -> Result<(), Fail> {
    let mut list = Arrivals::new(rt.alloc());
    for (id, mark) in [(0x0017, 4), (0x0026, 12), (0x0017, 20), (0x0026, 28)] {
        list.push(integer(id, 0), mark)?;
    }
    let end = list.settle().err();
    assert_eq!(rt; end, Some(SettleEnd::Duplicate(20)));
    Ok(())
}
