use carrier_io::{Blob, Fault, Holds, MemorySink, NoMemory, PassedList, Reason, Stop};
use prop_names::{Key, Name, NameSet};
use prop_values::{Kind, Part, Prop, Props, Value};
use std::alloc::Global;
use std::test::*;
use tnef_props::{
    ReadList, append_range, list_size, object_place, range_sum, read_list, write_range,
};

/// A list of one MultipleString, id 1234: `A` and the empty text, each with its null.
const TWO_TEXTS: [u8; 28] = [
    1, 0, 0, 0, 0x1f, 0x10, 0x34, 0x12, 2, 0, 0, 0, 4, 0, 0, 0, 0x41, 0, 0, 0, 2, 0, 0, 0, 0, 0, 0,
    0,
];

/// A list of one Integer32 of value 7, named by a number in a set, with the id 8765.
const NAMED: [u8; 36] = [
    1, 0, 0, 0, 3, 0, 0x65, 0x87, 2, 0x20, 6, 0, 0, 0, 0, 0, 0xc0, 0, 0, 0, 0, 0, 0, 0x46, 0, 0, 0,
    0, 0x0d, 0x82, 0, 0, 7, 0, 0, 0,
];

/// A slice that is held.
#[derive(Drop)]
struct Kept<'a> {
    bytes: &'a [u8],
}

impl<'a> Blob for Kept<'a> {
    ghost use Rattle.std.specs.Prelude.{refl};

    ghost bytes = { λ k. k.bytes.now };

    ghost count = { λ _. 1 };

    ghost part = { λ k _. k.bytes.now };

    ghost joins = { λ _. refl };

    fn len(&self) -> usize {
        self.bytes.len()
    }

    fn pieces(&self) -> usize {
        1
    }

    fn piece(&self, _k: usize) -> &[u8] {
        self.bytes
    }
}

impl<'a> Holds<&'a [u8]> for Kept<'a> {
    fn holding(_: Global, bytes: &'a [u8]) -> Result<Kept<'a>, NoMemory> {
        Ok(Kept { bytes })
    }
}

#[test]
fn texts_are_read(rt: HostRuntime) -> Result<(), Fail> {
    let alloc = rt.alloc();
    let mut passed = PassedList::new(alloc);
    let texts: ReadList<'_, Kept<'_>> = read_list(alloc, &TWO_TEXTS, 0, 0, Part::Top, &mut passed)?;
    assert_eq!(rt; (texts.props.len(), texts.end), (1, 28));
    match &texts.props.get(0).value {
        Value::Parts { kind, list } => {
            assert_eq!(rt; (*kind, list.len()), (Kind::MultipleString, 2));
            assert_eq!(rt; list.get(0).bytes, [0x41, 0].as_slice());
            assert_eq!(rt; list.get(1).bytes.len(), 0);
        }
        _ => return Err("texts".into()),
    }
    Ok(())
}

#[test]
fn names_are_read(rt: HostRuntime) -> Result<(), Fail> {
    let alloc = rt.alloc();
    let mut passed = PassedList::new(alloc);
    let named: ReadList<'_, Kept<'_>> = read_list(alloc, &NAMED, 0, 0, Part::Top, &mut passed)?;
    assert_eq!(rt; named.props.len(), 1);
    match &named.props.get(0).key {
        Key::Named(Name::Number { number, .. }) => assert_eq!(rt; *number, 0x820d),
        _ => return Err("a name".into()),
    }
    assert_eq!(rt; passed.len(), 0);
    Ok(())
}

#[test]
fn faults_of_lists(rt: HostRuntime) -> Result<(), Fail> {
    let alloc = rt.alloc();
    let mut other_kind = NAMED;
    other_kind[24] = 2;
    let mut odd_name = NAMED;
    odd_name[24] = 1;
    let mut other_type = TWO_TEXTS;
    other_type[4] = 0x20;
    let mut single = TWO_TEXTS;
    single[5] = 0;
    let double = [
        2, 0, 0, 0, 3, 0, 0x17, 0, 1, 0, 0, 0, 3, 0, 0x17, 0, 2, 0, 0, 0,
    ];
    let mut double_first = double;
    double_first[0] = 3;
    let mut object = [0u8; 32];
    object[0] = 1;
    object[4..8].copy_from_slice(&[0x0d, 0, 1, 0x37]);
    object[8] = 1;
    object[12] = 15;
    let table = [
        (&other_kind[..], Reason::BadNameKind, 73),
        (&odd_name[..], Reason::BadNameSize, 77),
        (&other_type[..], Reason::UnknownListType, 53),
        (&single[..], Reason::BadCount, 57),
        (&double[..], Reason::DuplicateListProperty, 61),
        (&double_first[..], Reason::DuplicateListProperty, 61),
        (&object[..], Reason::BadSize, 61),
        (&TWO_TEXTS[..27], Reason::ListTruncated, 75),
    ];
    for (bytes, reason, offset) in table {
        let mut passed = PassedList::new(alloc);
        let read: Result<ReadList<'_, Kept<'_>>, Stop> = read_list(
            alloc,
            bytes,
            0,
            49,
            Part::Attachment,
            &mut passed,
        );
        match read {
            Err(Stop::Fault(g)) => assert_eq!(rt; g, Fault { reason, offset }),
            _ => return Err("a fault".into()),
        }
    }
    Ok(())
}

#[test]
fn a_list_is_written(rt: HostRuntime) -> Result<(), Fail> {
    let alloc = rt.alloc();
    let mut props: Props<&[u8]> = Props::new(alloc);
    let text = Prop {
        key: Key::Id(0x1234),
        value: Value::Bytes {
            kind: Kind::String,
            bytes: &[0x41, 0][..],
        },
    };
    props.insert_sorted(text).ok().ok_or("a text")?;
    let names = NameSet::new(alloc);
    let mut sink = MemorySink::new(alloc, 100, Vec::new(alloc))?;
    write_range(&mut sink, &props, &names, 0, 1)?;
    let wanted = [0x1f, 0, 0x34, 0x12, 1, 0, 0, 0, 4, 0, 0, 0, 0x41, 0, 0, 0];
    assert_eq!(rt; sink.bytes(), wanted.as_slice());
    assert_eq!(rt; range_sum(&props, &names, 0, 1), 0xab);
    assert_eq!(rt; append_range(&mut sink, &props, &names, 0, 1), Ok(0xab));
    assert_eq!(rt;
        (list_size(&props, None), list_size(&props, Some(16))),
        (20, 48)
    );
    assert_eq!(rt; object_place(&props), 1);
    Ok(())
}
