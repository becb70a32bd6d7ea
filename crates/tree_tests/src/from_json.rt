use msg_tree::{depth, same};
use std::alloc::{AllocError, Global};
use std::test::*;
use tree_from_json::JsonWhy::{self, Deep, Digits, Form, Kind, NotJson, Order, Range};
use tree_from_json::{JsonEnd, JsonFault, tree_of};
use tree_json::json_of;

/// A message with properties, a recipient, a message and a store.
const WHOLE: &str =
    "{\"attachments\":[{\"message\":{\"attachments\":[],\"properties\":[],\"recipients\":[]},\"properties\":[]},{\"properties\":[],\"store\":{\"class\":\"02020202020202020202020202020202\",\"members\":[{\"data\":\"01ff\",\"path\":[\"b\"]},{\"class\":\"01010101010101010101010101010101\",\"path\":[\"CC\"]},{\"data\":\"\",\"path\":[\"CC\",\"a\"]},{\"data\":\"00\",\"path\":[\"ddd\"]}]}}],\"properties\":[{\"key\":\"0017\",\"kind\":\"Integer32\",\"value\":2},{\"key\":\"0037\",\"kind\":\"String\",\"value\":\"\u{e9}\u{1f600}\"},{\"key\":{\"set\":\"62626262626262626262626262626262\",\"text\":{\"units\":\"00d8\"}},\"kind\":\"Guid\",\"value\":\"000102030405060708090a0b0c0d0e0f\"}],\"recipients\":[[{\"key\":{\"number\":33293,\"set\":\"62626262626262626262626262626262\"},\"kind\":\"MultipleInteger16\",\"value\":[1,65535]}]]}";

/// What is not so fails the test.
fn holds(fact: bool, what: &'static str) -> Result<(), Fail> {
    if fact { Ok(()) } else { Err(what.into()) }
}

#[test]
fn a_text_is_read_and_written_again(rt: HostRuntime) -> Result<(), Fail> {
    let tree = tree_of(rt.alloc(), WHOLE.as_bytes())?;
    let text = json_of(rt.alloc(), &tree)?;
    holds(text.as_str() == WHOLE, "another text")?;
    let again = tree_of(rt.alloc(), text.as_bytes())?;
    holds(same(&tree, &again), "another tree")
}

/// Texts, one behind the other.
fn joined(alloc: Global, parts: &[&str]) -> Result<String, AllocError> {
    let mut text = String::new(alloc);
    for part in parts {
        text.push_str(*part)?;
    }
    Ok(text)
}

/// Messages in one another, so many below the top one.
fn nested(alloc: Global, levels: u32) -> Result<String, AllocError> {
    let mut text = joined(
        alloc,
        &[r#"{"attachments":[],"properties":[],"recipients":[]}"#],
    )?;
    for _ in 0..levels {
        let before = r#"{"attachments":[{"message":"#;
        let behind = r#","properties":[]}],"properties":[],"recipients":[]}"#;
        text = joined(alloc, &[before, text.as_str(), behind])?;
    }
    Ok(text)
}

/// The first fault of a text.
fn fault_of(alloc: Global, text: &str) -> Option<JsonFault> {
    match tree_of(alloc, text.as_bytes()) {
        Err(JsonEnd::Fault(fault)) => Some(fault),
        _ => None,
    }
}

#[test]
fn levels_of_messages(rt: HostRuntime) -> Result<(), Fail> {
    let text = nested(rt.alloc(), 32)?;
    let tree = tree_of(rt.alloc(), text.as_bytes())?;
    holds(depth(&tree) == 32, "another level")
}

#[test]
fn a_level_too_many(rt: HostRuntime) -> Result<(), Fail> {
    let text = nested(rt.alloc(), 33)?;
    let fault = fault_of(rt.alloc(), text.as_str()).ok_or("a fault")?;
    holds(fault.why == Deep && fault.path.len() == 99, "another fault")
}

/// A text, and why and where it has its first fault.
type Row = (&'static str, JsonWhy, &'static [u64]);

/// Whether a fault is that of a row.
fn is_at(fault: &JsonFault, row: &Row) -> bool {
    if fault.why != row.1 || fault.path.len() != row.2.len() {
        return false;
    }
    for k in 0..row.2.len() {
        if *fault.path.get(k) != row.2[k] {
            return false;
        }
    }
    true
}

/// The text of a row between others has to have its fault.
fn refused(alloc: Global, before: &str, row: &Row, behind: &str) -> Result<(), Fail> {
    let mut text = String::new(alloc);
    text.push_str(before)?;
    text.push_str(row.0)?;
    text.push_str(behind)?;
    let fault = fault_of(alloc, text.as_str()).ok_or("a fault")?;
    holds(is_at(&fault, row), "another fault")
}

const TEXTS: [Row; 5] = [
    ("[", NotJson, &[]),
    (r#"{"a":1e999}"#, NotJson, &[]),
    ("{}", Form, &[]),
    ("[]", Form, &[]),
    (
        r#"{"attachments":[],"properties":{},"recipients":[]}"#,
        Form,
        &[1],
    ),
];

#[test]
fn texts_of_no_message(rt: HostRuntime) -> Result<(), Fail> {
    for row in &TEXTS {
        refused(rt.alloc(), "", row, "")?;
    }
    Ok(())
}

const PROPERTIES: [Row; 11] = [
    (
        r#""0017","kind":"Integer32","value":2,"width":4"#,
        Form,
        &[1, 0],
    ),
    (r#""0017","kind":"Integer32","value":"2""#, Form, &[1, 0, 2]),
    (r#""x","kind":"Integer33","value":{}"#, Kind, &[1, 0, 1]),
    (r#""0017","kind":"integer32","value":2"#, Kind, &[1, 0, 1]),
    (r#""001a","kind":"Integer32","value":2"#, Digits, &[1, 0, 0]),
    (
        r#""0FF9","kind":"MultipleBinary","value":["00","0F"]"#,
        Digits,
        &[1, 0, 2, 1],
    ),
    (
        r#""0037","kind":"String","value":{"units":"00d800"}"#,
        Digits,
        &[1, 0, 2, 0],
    ),
    (r#""8000","kind":"Integer32","value":2"#, Range, &[1, 0, 0]),
    (r#""0017","kind":"Boolean","value":2"#, Range, &[1, 0, 2]),
    (
        r#""0017","kind":"Integer32","value":2.0"#,
        Range,
        &[1, 0, 2],
    ),
    (
        r#"{"number":4294967296,"set":""},"kind":"Integer32","value":2"#,
        Range,
        &[1, 0, 0, 0],
    ),
];

#[test]
fn faults_of_properties(rt: HostRuntime) -> Result<(), Fail> {
    for row in &PROPERTIES {
        let before = r#"{"attachments":[],"properties":[{"key":"#;
        refused(rt.alloc(), before, row, r#"}],"recipients":[]}"#)?;
    }
    Ok(())
}

/// The ids of a property that does not stand behind one of the id 0017.
const LATE: [Row; 2] = [("0017", Order, &[1, 1]), ("0016", Order, &[1, 1])];

#[test]
fn properties_in_disorder(rt: HostRuntime) -> Result<(), Fail> {
    for row in &LATE {
        let before =
            r#"{"attachments":[],"properties":[{"key":"0017","kind":"Integer32","value":2},{"key":""#;
        let behind = r#"","kind":"Integer32","value":2}],"recipients":[]}"#;
        refused(rt.alloc(), before, row, behind)?;
    }
    Ok(())
}

const MEMBERS: [Row; 8] = [
    (r#"{"data":"","path":[]}"#, Form, &[0, 0, 1, 1, 0, 1]),
    (r#"{"path":["a"]}"#, Form, &[0, 0, 1, 1, 0]),
    (r#"{"data":"0","path":["a"]}"#, Digits, &[0, 0, 1, 1, 0, 0]),
    (
        r#"{"class":"00","path":["a"]}"#,
        Digits,
        &[0, 0, 1, 1, 0, 0],
    ),
    (
        r#"{"data":"","path":["0123456789abcdef0123456789abcdef"]}"#,
        Range,
        &[0, 0, 1, 1, 0, 1, 0],
    ),
    (
        r#"{"data":"","path":["b"]},{"data":"","path":["B"]}"#,
        Order,
        &[0, 0, 1, 1, 1],
    ),
    (r#"{"data":"","path":["a","b"]}"#, Order, &[0, 0, 1, 1, 0]),
    (
        r#"{"data":"","path":["__properties_version1.0"]}"#,
        Deep,
        &[0, 0, 1],
    ),
];

#[test]
fn faults_of_stores(rt: HostRuntime) -> Result<(), Fail> {
    for row in &MEMBERS {
        let before =
            r#"{"attachments":[{"properties":[],"store":{"class":"02020202020202020202020202020202","members":["#;
        let behind = r#"]}}],"properties":[],"recipients":[]}"#;
        refused(rt.alloc(), before, row, behind)?;
    }
    Ok(())
}
