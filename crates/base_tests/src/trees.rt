ghost use Rattle.std.specs.Prelude.{◌≡◌, ◌<◌, length};
ghost use Rattle.carrier_model.specs.Tree as plain;
ghost use Rattle.carrier_model.specs.Keys.{IsName};
ghost use Rattle.msg_tree.specs.Whole.{plain_of};
ghost use Rattle.prop_names.specs.Meaning.{name_of};

use crate::halves::Halves;
use carrier_io::{Blob, NoMemory, PassedList, Units};
use msg_tree::{
    Accepted, Attachment, Attachments, Body, Counts, Limit, Member, MemberEnd, Message, Recipients,
    Store, Tree, copy_owned, counts, depth, fits_msg, fits_tnef, names, same,
};
use prop_names::{Guid, Key, Name, NameSet};
use prop_values::{Kind, Prop, Props, Value};
use std::alloc::Global;
use std::test::*;

const SET: Guid = Guid([0x62; 16]);

const NUMBER: Name = Name::Number {
    set: SET,
    number: 0x820D,
};

/// Bytes under an id.
fn binary<B: Blob>(id: u16, bytes: B) -> Prop<B>
    requires id { id < 0x8000 }
    requires short { length (B.bytes bytes) < 0x4000_0000 }
{
    Prop {
        key: Key::Id(id),
        value: Value::Bytes {
            kind: Kind::Binary,
            bytes,
        },
    }
}

/// The number 7 under a name.
fn named<B: Blob>(name: Name) -> Prop<B>
    requires { IsName (name_of name) }
{
    Prop {
        key: Key::Named(name),
        value: Value::Number {
            kind: Kind::Integer32,
            bits: 7,
        },
    }
}

/// A list with one property.
fn listed<B: Blob>(alloc: Global, prop: Prop<B>) -> Result<Props<B>, NoMemory> {
    let mut props = Props::with_capacity(alloc, 1)?;
    match props.insert_sorted(prop) {
        Ok(()) => Ok(props),
        Err(_) => Err(NoMemory),
    }
}

/// A message with these properties alone.
fn bare<B: Blob>(alloc: Global, props: Props<B>) -> Message<B> {
    Message {
        props,
        recipients: Recipients::new(alloc),
        attachments: Attachments::new(alloc),
    }
}

/// A message with one attachment alone.
fn around<B: Blob>(alloc: Global, props: Props<B>, body: Body<B>) -> Result<Message<B>, NoMemory> {
    let mut message = bare(alloc, Props::new(alloc));
    message.attachments.push(Attachment { props, body })?;
    Ok(message)
}

/// A message with an attachment that has a property and a message with one, and with an attachment without any.
fn outer<B: Blob + Copy>(alloc: Global, bytes: B) -> Result<Message<B>, NoMemory>
    requires { length (B.bytes bytes) < 0x4000_0000 }
{
    let inner = bare(alloc, listed(alloc, binary(0x1013, bytes))?);
    let body = Body::Message(Box::new(alloc, inner)?);
    let mut outer = around(alloc, listed(alloc, binary(0x3701, bytes))?, body)?;
    outer.attachments.push(Attachment {
        props: Props::new(alloc),
        body: Body::Plain,
    })?;
    Ok(outer)
}

/// A recipient with one property, under a text.
fn recipient<B: Blob>(alloc: Global) -> Result<Props<B>, NoMemory> {
    let mut units = Units::new(alloc);
    units.push(0x61)?;
    listed(alloc, named(Name::of_text(alloc, SET, units)?))
}

/// That message with a recipient and two properties.
fn sample<B: Blob + Copy>(alloc: Global, bytes: B) -> Result<Message<B>, NoMemory>
    requires { length (B.bytes bytes) < 0x4000_0000 }
{
    let mut props = listed(alloc, named(NUMBER))?;
    if props.insert_sorted(binary(0x1013, bytes)).is_err() {
        return Err(NoMemory);
    }
    let mut message = outer(alloc, bytes)?;
    message.props = props;
    message.recipients.push(recipient(alloc)?)?;
    Ok(message)
}

/// What is in the sample.
const IN_SAMPLE: Counts = Counts {
    messages: 2,
    recipients: 1,
    attachments: 2,
    properties: 5,
    depth: 1,
};

/// What is not so fails the test.
fn holds(fact: bool, what: &'static str) -> Result<(), Fail> {
    if fact { Ok(()) } else { Err(what.into()) }
}

/// A tree of the message.
fn tree_of<B: Blob>(message: Result<Message<B>, NoMemory>) -> Result<Tree<B>, Fail> {
    Ok(Tree::new(message?).ok().ok_or("a tree")?)
}

/// A copy, which has to be the same.
fn copied<B: Blob>(alloc: Global, tree: &Tree<B>) -> Result<Tree<Vec<u8>>, Fail> {
    let copy = copy_owned(alloc, tree)?;
    if same(tree, &copy) {
        Ok(copy)
    } else {
        Err("another copy".into())
    }
}

/// Whether the names are those of the sample, and within both limits.
fn are_few<B: Blob>(tree: &Tree<B>, names: &NameSet) -> bool
    requires { names.now ≡ plain.names_of (plain_of tree.now) }
{
    fits_msg(tree, names).is_none()
        && fits_tnef(tree, names).is_none()
        && names.len() == 2
        && names.position(&NUMBER) == Some(0)
}

/// What every call answers on the sample, whatever its blobs are; and a copy.
fn every_call<B: Blob>(alloc: Global, tree: &Tree<B>) -> Result<Tree<Vec<u8>>, Fail> {
    holds(are_few(tree, &names(alloc, tree)?), "other names")?;
    let attachments = tree.top().attachments.len();
    holds(attachments == 2 && depth(tree) == 1, "another tree")?;
    holds(counts(tree) == IN_SAMPLE, "other numbers")?;
    copied(alloc, tree)
}

#[test]
fn calls_on_three_blobs(rt: HostRuntime) -> Result<(), Fail> {
    let alloc = rt.alloc();
    let bytes = [1u8, 2, 3, 4];
    let halves = Halves {
        first: &bytes[..1],
        second: &bytes[1..],
    };
    let one = every_call(alloc, &tree_of(sample(alloc, halves))?)?;
    let other = every_call(alloc, &tree_of(sample(alloc, bytes.as_slice()))?)?;
    let whole = counts(&one) == IN_SAMPLE && counts(&other) == IN_SAMPLE;
    holds(whole && same(&one, &other), "another copy")
}

#[test]
fn nothing_is_passed_over(rt: HostRuntime) -> Result<(), Fail> {
    let accepted = Accepted {
        tree: tree_of(sample(rt.alloc(), &[1u8, 2, 3, 4][..]))?,
        passed: PassedList::new(rt.alloc()),
    };
    holds(accepted.passed.len() == 0, "something is")
}

/// A message with so many levels below it.
fn chain(alloc: Global, levels: u64) -> Result<Message<Vec<u8>>, NoMemory> {
    let mut message = bare(alloc, Props::new(alloc));
    for _ in 0..levels {
        let body = Body::Message(Box::new(alloc, message)?);
        message = around(alloc, Props::new(alloc), body)?;
    }
    Ok(message)
}

#[test]
fn greatest_level(rt: HostRuntime) -> Result<(), Fail> {
    let deepest = tree_of(chain(rt.alloc(), 32))?;
    holds(depth(&deepest) == 32, "another level")?;
    copied(rt.alloc(), &deepest)?;
    let deeper = chain(rt.alloc(), 33)?;
    holds(Tree::new(deeper).is_err(), "a tree of 33 levels")
}

#[test]
fn limits_of_a_message(rt: HostRuntime) -> Result<(), Fail> {
    let alloc = rt.alloc();
    let mut message: Message<Vec<u8>> = bare(alloc, Props::new(alloc));
    for _ in 0..2049 {
        message.recipients.push(Props::new(alloc))?;
    }
    let tree = tree_of(Ok(message))?;
    let names = names(alloc, &tree)?;
    let many = fits_msg(&tree, &names) == Some(Limit::Recipients(2049));
    holds(many && fits_tnef(&tree, &names).is_none(), "other limits")
}

/// Whether a member was handed back, a storage of this class.
fn is_back(end: Result<(), MemberEnd<Vec<u8>>>, class: [u8; 16]) -> bool {
    match end {
        Err(MemberEnd::Duplicate(Member::Storage(inner))) => inner.class() == class,
        _ => false,
    }
}

#[test]
fn members_by_their_names(rt: HostRuntime) -> Result<(), Fail> {
    let alloc = rt.alloc();
    let mut store: Store<Vec<u8>> = Store::new(alloc, [7; 16]);
    let inner = Member::Storage(Store::new(alloc, [8; 16]));
    store.insert(&[0x61], inner).ok().ok_or("a member")?;
    let double = Member::Storage(Store::new(alloc, [9; 16]));
    let back = is_back(store.insert(&[0x41], double), [9; 16]);
    holds(
        back && store.len() == 1 && store.class() == [7; 16],
        "another store",
    )?;
    let message = around(alloc, Props::new(alloc), Body::Store(store));
    copied(alloc, &tree_of(message)?)?;
    Ok(())
}

// The name of the stream that makes a storage a message, in upper case.
const LIST: [u16; 23] = [
    95, 95, 80, 82, 79, 80, 69, 82, 84, 73, 69, 83, 95, 86, 69, 82, 83, 73, 79, 78, 49, 46, 48,
];

#[test]
fn a_store_that_is_a_message(rt: HostRuntime) -> Result<(), Fail> {
    let alloc = rt.alloc();
    let mut store: Store<Vec<u8>> = Store::new(alloc, [0; 16]);
    let list = Member::Stream(Vec::new(alloc));
    store.insert(&LIST, list).ok().ok_or("a member")?;
    let message = around(alloc, Props::new(alloc), Body::Store(store))?;
    holds(Tree::new(message).is_err(), "a tree")
}
