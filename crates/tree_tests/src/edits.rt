use edit_words::{Edits, read_edits};
use msg_tree::{Attachment, Attachments, Body, Message, Recipients, Tree, same};
use prop_names::Key;
use prop_values::{InsertEnd, Kind, Prop, Props, Value};
use std::alloc::Global;
use std::test::*;
use tree_edit::{EditEnd, EditFault, EditWhy, edited};

/// The priority of a message, and that of the one message in it, if there is one.
type Shape = (u32, Option<u32>);

/// What is not so fails the test.
fn holds(fact: bool, what: &'static str) -> Result<(), Fail> {
    if fact { Ok(()) } else { Err(what.into()) }
}

/// A property list with the priority.
fn numbers(alloc: Global, bits: u32) -> Result<Props<Vec<u8>>, InsertEnd<Vec<u8>>> {
    let mut props = Props::new(alloc);
    props.insert_sorted(Prop {
        key: Key::Id(0x0017),
        value: Value::Number {
            kind: Kind::Integer32,
            bits: u64::from(bits),
        },
    })?;
    Ok(props)
}

/// A message with the priority and these attachments.
fn message(
    alloc: Global,
    bits: u32,
    attachments: Attachments<Vec<u8>>,
) -> Result<Message<Vec<u8>>, Fail> {
    Ok(Message {
        props: numbers(alloc, bits).ok().ok_or("numbers")?,
        recipients: Recipients::new(alloc),
        attachments,
    })
}

/// An attachment with a message that has the priority alone.
fn attachment(alloc: Global, bits: u32) -> Result<Attachment<Vec<u8>>, Fail> {
    let inner = message(alloc, bits, Attachments::new(alloc))?;
    Ok(Attachment {
        props: Props::new(alloc),
        body: Body::Message(Box::new(alloc, inner)?),
    })
}

/// The attachments of a shape.
fn attachments(alloc: Global, below: Option<u32>) -> Result<Attachments<Vec<u8>>, Fail> {
    let mut list = Attachments::new(alloc);
    if let Some(bits) = below {
        list.push(attachment(alloc, bits)?)?;
    }
    Ok(list)
}

/// The tree of a shape.
fn tree(alloc: Global, shape: Shape) -> Result<Tree<Vec<u8>>, Fail> {
    let top = message(alloc, shape.0, attachments(alloc, shape.1)?)?;
    Ok(Tree::new(top).ok().ok_or("a tree")?)
}

/// Puts words behind others.
fn push_words(rt: &HostRuntime, list: &mut Vec<String>, words: &[&str]) -> Result<(), Fail> {
    for word in words {
        list.push(String::from_str(rt.alloc(), word)?)?;
    }
    Ok(())
}

fn edits_of(alloc: Global, words: &[String]) -> Result<Edits<'_>, Fail> {
    Ok(read_edits(alloc, words)?.ok_or("edits")?)
}

/// What the edits of words make of a tree; the error of words that are no edits is its own.
fn edited_by(
    rt: &HostRuntime,
    words: &[String],
    before: Shape,
) -> Result<Result<Tree<Vec<u8>>, EditEnd>, Fail> {
    let alloc = rt.alloc();
    let edits = edits_of(alloc, words)?;
    Ok(edited(alloc, &tree(alloc, before)?, &edits))
}

/// A tree has to be the one of a shape.
fn is_of(rt: &HostRuntime, got: &Tree<Vec<u8>>, shape: Shape) -> Result<(), Fail> {
    holds(same(got, &tree(rt.alloc(), shape)?), "another tree")
}

/// Edits have to make one tree of another.
fn make(rt: &HostRuntime, words: &[String], before: Shape, after: Shape) -> Result<(), Fail> {
    match edited_by(rt, words, before)? {
        Ok(got) => is_of(rt, &got, after),
        Err(_) => Err("no tree".into()),
    }
}

/// Edits have to end at the one of a number, for a reason.
fn stop(
    rt: &HostRuntime,
    words: &[String],
    before: Shape,
    edit: u64,
    why: EditWhy,
) -> Result<(), Fail> {
    let end = edited_by(rt, words, before)?.err();
    let wanted = EditEnd::Fault(EditFault { edit, why });
    holds(end == Some(wanted), "another end")
}

fn words(rt: &HostRuntime, list: &[&str]) -> Result<Vec<String>, Fail> {
    let mut words = Vec::new(rt.alloc());
    push_words(rt, &mut words, list)?;
    Ok(words)
}

/// The same of words as a row has them.
fn makes(rt: &HostRuntime, row: &[&str], before: Shape, after: Shape) -> Result<(), Fail> {
    make(rt, &words(rt, row)?, before, after)
}

fn stops(
    rt: &HostRuntime,
    row: &[&str],
    before: Shape,
    edit: u64,
    why: EditWhy,
) -> Result<(), Fail> {
    stop(rt, &words(rt, row)?, before, edit, why)
}

/// A recipient that comes, gets a property and goes.
const THERE_AND_BACK: [&str; 10] = [
    "add-recipient",
    ".",
    "set",
    "./r0",
    "3001",
    "String",
    "r",
    "drop-recipient",
    ".",
    "0",
];

/// An edit that is done, and one of a message that isn't there.
const SECOND_IS_NOWHERE: [&str; 9] = [
    "remove",
    ".",
    "0017",
    "Integer32",
    "set",
    "./m0",
    "0017",
    "Integer32",
    "1",
];

#[test]
fn edits_that_are_done(rt: HostRuntime) -> Result<(), Fail> {
    let table = [
        (&["set", ".", "0017", "Integer32", "1"][..], None, (1, None)),
        (
            &["set", "./m0", "0017", "Integer32", "7"][..],
            Some(3),
            (2, Some(7)),
        ),
        (&THERE_AND_BACK[..], None, (2, None)),
        (&["drop-attachment", ".", "0"][..], Some(3), (2, None)),
    ];
    for (row, below, after) in table {
        makes(&rt, row, (2, below), after)?;
    }
    Ok(())
}

#[test]
fn edits_that_cannot_be_done(rt: HostRuntime) -> Result<(), Fail> {
    let absent = ["remove", ".", "0037", "String"];
    stops(&rt, &absent, (2, None), 0, EditWhy::NoProperty)?;
    stops(&rt, &SECOND_IS_NOWHERE, (2, None), 1, EditWhy::NoPlace)
}

/// Puts the words of an edit of an id of the top message behind others.
fn push_edit(
    rt: &HostRuntime,
    list: &mut Vec<String>,
    verb: &str,
    id: u32,
    behind: &[&str],
) -> Result<(), Fail> {
    let id = format!(in rt.alloc(); "{id:04X}")?;
    push_words(rt, list, &[verb, ".", id.as_str()])?;
    push_words(rt, list, behind)
}

/// Many edits of one place: the ids from 005F down are set, and 0017 before them.
fn push_falling_sets(rt: &HostRuntime, list: &mut Vec<String>) -> Result<(), Fail> {
    push_edit(rt, list, "set", 0x17, &["Integer32", "6"])?;
    for id in (1..0x60).rev() {
        push_edit(rt, list, "set", id, &["Integer32", "1"])?;
    }
    Ok(())
}

/// All of them but 0017 are removed.
fn push_removes(rt: &HostRuntime, list: &mut Vec<String>) -> Result<(), Fail> {
    for id in 1..0x60 {
        if id != 0x17 {
            push_edit(rt, list, "remove", id, &["Integer32"])?;
        }
    }
    Ok(())
}

/// The ids come and go; then one is removed that isn't there any more.
fn ids_come_and_go(rt: &HostRuntime, list: &mut Vec<String>) -> Result<(), Fail> {
    push_falling_sets(rt, list)?;
    push_removes(rt, list)?;
    make(rt, list, (2, None), (1, None))?;
    push_edit(rt, list, "remove", 1, &["Integer32"])?;
    stop(rt, list, (2, None), 190, EditWhy::NoProperty)
}

#[test]
fn many_edits_of_a_place(rt: HostRuntime) -> Result<(), Fail> {
    let mut list = Vec::new(rt.alloc());
    ids_come_and_go(&rt, &mut list)
}

/// Seventy recipients come and go.
fn push_recipients(rt: &HostRuntime, list: &mut Vec<String>) -> Result<(), Fail> {
    for _ in 0..70 {
        push_words(rt, list, &["add-recipient", "."])?;
    }
    for _ in 0..70 {
        push_words(rt, list, &["drop-recipient", ".", "0"])?;
    }
    Ok(())
}

/// Recipients come and go; then one goes that isn't there any more.
fn recipients_come_and_go(rt: &HostRuntime, list: &mut Vec<String>) -> Result<(), Fail> {
    push_recipients(rt, list)?;
    make(rt, list, (2, None), (2, None))?;
    push_words(rt, list, &["drop-recipient", ".", "0"])?;
    stop(rt, list, (2, None), 140, EditWhy::NoPlace)
}

#[test]
fn many_recipients_that_come_and_go(rt: HostRuntime) -> Result<(), Fail> {
    let mut list = Vec::new(rt.alloc());
    recipients_come_and_go(&rt, &mut list)
}
