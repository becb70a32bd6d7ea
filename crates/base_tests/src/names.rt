use carrier_io::{MemorySink, Units};
use cfb_names::{is_property_stream, sibling_order};
use prop_names::{
    Guid, Key, Name, NameSet, bytes_of_digits, guid_of_digits, lower_digits2, number_of_eight,
    number_of_four, print_key, set_label, upper_digits2, upper_digits16, write_decimal,
};
use std::alloc::Global;
use std::cmp::Ordering;
use std::test::*;

/// The set of appointments.
const APPOINTMENT: Guid = Guid([
    0x02, 0x20, 0x06, 0x00, 0x00, 0x00, 0x00, 0x00, 0xc0, 0x00, 0x00, 0x00, 0x00, 0x00, 0x00, 0x46,
]);

/// A set without a label.
const OTHER: Guid = Guid([
    0x33, 0x22, 0x11, 0x00, 0x55, 0x44, 0x77, 0x66, 0x88, 0x99, 0xaa, 0xbb, 0xcc, 0xdd, 0xee, 0xff,
]);

fn text(alloc: Global, set: Guid, units: &[u16]) -> Result<Name, Fail> {
    let units = Units::from_vec(units.to_vec(alloc)?);
    Ok(Name::of_text(alloc, set, units)?)
}

fn printed(alloc: Global, key: &Key) -> Result<Vec<u8>, Fail> {
    let mut sink = MemorySink::new(alloc, 200, Vec::new(alloc))?;
    print_key(key, &mut sink)?;
    Ok(sink.bytes().to_vec(alloc)?)
}

#[test]
fn keys_in_print(rt: HostRuntime) -> Result<(), Fail> {
    let alloc = rt.alloc();
    let id = printed(alloc, &Key::Id(0x0e1d))?;
    assert_eq!(rt; id.as_slice(), "0E1D".as_bytes());
    let number = Name::Number {
        set: APPOINTMENT,
        number: 0x820d,
    };
    let number = printed(alloc, &Key::Named(number))?;
    assert_eq!(rt; number.as_slice(), "PSETID_Appointment/0000820D".as_bytes());
    let quoted = text(alloc, OTHER, &[0x41, 0x22, 0x5c, 0x7e, 0x7f, 0x20ac])?;
    let quoted = printed(alloc, &Key::Named(quoted))?;
    assert_eq!(rt;
        quoted.as_slice(),
        "{00112233-4455-6677-8899-aabbccddeeff}/\"A\\0022\\005C~\\007F\\20AC\"".as_bytes()
    );
    Ok(())
}

#[test]
fn numbers_in_print(rt: HostRuntime) -> Result<(), Fail> {
    let alloc = rt.alloc();
    let mut sink = MemorySink::new(alloc, 20, Vec::new(alloc))?;
    write_decimal(&mut sink, u64::MAX)?;
    assert_eq!(rt; sink.bytes(), "18446744073709551615".as_bytes());
    assert_eq!(rt; upper_digits16(0x0123_4567_89ab_cdef), *b"0123456789ABCDEF");
    assert_eq!(rt; upper_digits2(0xc5), *b"C5");
    assert_eq!(rt; lower_digits2(0xc5), *b"c5");
    Ok(())
}

#[test]
fn digits_are_read(rt: HostRuntime) -> Result<(), Fail> {
    let numbers = (number_of_four(b"0E1D"), number_of_eight(b"3701000D"));
    assert_eq!(rt; numbers, (Some(0x0e1d), Some(0x3701_000d)));
    for wrong in [b"0e1d", b"0E1G", b"0E1/"] {
        assert_eq!(rt; number_of_four(wrong), None);
    }
    let bytes = bytes_of_digits(rt.alloc(), b"00c5ff")?;
    assert!(rt; bytes.ok_or("no digits")?.as_slice() == [0, 0xc5, 0xff].as_slice());
    for wrong in [b"00C5", b"00cg", b"00c:"] {
        let bytes = bytes_of_digits(rt.alloc(), wrong)?;
        assert!(rt; bytes.is_none());
    }
    let set = guid_of_digits(b"0220060000000000c000000000000046");
    assert_eq!(rt; set, Some(APPOINTMENT));
    Ok(())
}

#[test]
fn siblings_in_order(rt: HostRuntime) -> Result<(), Fail> {
    let table = [
        (&[0x62][..], &[0x61, 0x61][..], Ordering::Less),
        (&[0x61, 0x5a][..], &[0x41, 0x7a][..], Ordering::Equal),
        (&[0x61][..], &[0x5f][..], Ordering::Less),
        (&[0xe4][..], &[0xc4][..], Ordering::Greater),
    ];
    for (one, other, order) in table {
        assert_eq!(rt; sibling_order(one, other), order);
    }
    let mut name = [0; 23];
    for k in 0..23 {
        name[k] = u16::from(b"__PROPERTIES_version1.0"[k]);
    }
    assert!(rt; is_property_stream(&name));
    name[22] = 0x31;
    assert!(rt; !is_property_stream(&name));
    Ok(())
}

#[test]
fn labels(rt: HostRuntime) -> Result<(), Fail> {
    assert_eq!(rt; set_label(&APPOINTMENT), Some("PSETID_Appointment"));
    assert_eq!(rt; set_label(&OTHER), None);
    Ok(())
}

#[test]
fn names_in_order(rt: HostRuntime) -> Result<(), Fail> {
    let number = Name::Number {
        set: APPOINTMENT,
        number: 0x820d,
    };
    let mut units = Units::new(rt.alloc());
    units.push(0x41)?;
    let word = Name::of_text(rt.alloc(), APPOINTMENT, units)?;
    assert_eq!(rt; number.order(&word), Ordering::Less);
    let mut set = NameSet::new(rt.alloc());
    set.insert(&word)?;
    set.insert(&number)?;
    set.insert(&word)?;
    let places = (set.position(&number), set.position(&word));
    assert_eq!(rt; (set.len(), places), (2, (Some(0), Some(1))));
    let copy = word.copy(rt.alloc())?;
    assert_eq!(rt; Key::Named(copy).order(&Key::Named(word)), Ordering::Equal);
    Ok(())
}

#[test]
fn a_set_of_some_names(rt: HostRuntime) -> Result<(), Fail> {
    let low = Name::Number {
        set: APPOINTMENT,
        number: 0x820d,
    };
    let high = Name::Number {
        set: APPOINTMENT,
        number: 0x820e,
    };
    let again = high.copy(rt.alloc())?;
    let first = high.copy(rt.alloc())?;
    let second = low.copy(rt.alloc())?;
    let names = vec![in rt.alloc(); first, second, again]?;
    let set = NameSet::of(rt.alloc(), names);
    let places = (set.position(&low), set.position(&high));
    assert_eq!(rt; (set.len(), places), (2, (Some(0), Some(1))));
    Ok(())
}
