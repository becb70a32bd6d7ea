use edit_words::read_edits;
use std::test::*;

/// The key of a name by a number.
const NAME: &str = "0820060000000000c000000000000046/0000820E";

/// The same with a digit too many.
const LONG_NAME: &str = "08200600000000c000000000000000046/0000820E";

/// Kinds and values, and whether an edit may set them.
const VALUES: [(&str, &str, bool); 14] = [
    ("Integer16", "65535", true),
    ("Integer16", "65536", false),
    ("Integer64", "18446744073709551615", true),
    ("Currency", "18446744073709551616", false),
    ("ErrorCode", "00", false),
    ("Boolean", "1", true),
    ("Boolean", "2", false),
    ("Time", "+1", false),
    ("String", "", true),
    ("Binary", "0a1", false),
    ("Binary", "0a1B", false),
    ("Guid", "00112233445566778899aabbccddeeff", true),
    ("Guid", "0011", false),
    ("Floating32", "0", false),
];

/// Places and keys, and whether an edit may remove what is there.
const PLACES: [(&str, &str, bool); 9] = [
    (".", "0017", true),
    (".", "8000", false),
    (".", "001a", false),
    (".", LONG_NAME, false),
    ("./m01", "0017", false),
    ("./m1234567890", "0017", false),
    ("./r0/m0", "0017", false),
    ("./m0/", "0017", false),
    ("", "0017", false),
];

/// What is not so fails the test.
fn holds(fact: bool, what: &'static str) -> Result<(), Fail> {
    if fact { Ok(()) } else { Err(what.into()) }
}

fn words(rt: &HostRuntime, list: &[&str]) -> Result<Vec<String>, Fail> {
    let mut words = Vec::new(rt.alloc());
    for word in list {
        words.push(String::from_str(rt.alloc(), word)?)?;
    }
    Ok(words)
}

/// Whether words are edits.
fn are_edits(rt: &HostRuntime, list: &[&str]) -> Result<bool, Fail> {
    Ok(read_edits(rt.alloc(), &words(rt, list)?)?.is_some())
}

/// A value has to be one that an edit may set, or not.
fn is_value(rt: &HostRuntime, kind: &str, value: &str, good: bool) -> Result<(), Fail> {
    let list = ["set", "./m10/a0", NAME, kind, value];
    holds(are_edits(rt, &list)? == good, "another answer to a value")
}

/// A place and a key have to be those of an edit, or not.
fn is_place(rt: &HostRuntime, place: &str, key: &str, good: bool) -> Result<(), Fail> {
    let list = ["remove", place, key, "Time"];
    holds(are_edits(rt, &list)? == good, "another answer to a place")
}

#[test]
fn values_that_are_set(rt: HostRuntime) -> Result<(), Fail> {
    for (kind, value, good) in VALUES {
        is_value(&rt, kind, value, good)?;
    }
    Ok(())
}

#[test]
fn places_that_are_read(rt: HostRuntime) -> Result<(), Fail> {
    for (place, key, good) in PLACES {
        is_place(&rt, place, key, good)?;
    }
    Ok(())
}

#[test]
fn no_words_are_no_edits(rt: HostRuntime) -> Result<(), Fail> {
    holds(!are_edits(&rt, &[])?, "edits of no words")
}
