ghost use Rattle.std.specs.Prelude.{◌<◌, length};
ghost use Rattle.carrier_model.specs.Values.{IsValue};
ghost use Rattle.prop_values.specs.Meaning.{value_of};

use carrier_io::{
    Blob, MemorySink, NoMemory, Numbers, Passed, PassedList, Writing, write_gathered,
};
use msg_tree::{Attachment, Attachments, Body, Member, Message, Recipients, Store, Tree, names};
use prop_names::Key;
use prop_values::{InsertEnd, Kind, Prop, Props, Value};
use std::alloc::Global;
use std::test::*;
use tree_texts::{CheckText, ShowText, TreeCarrier, write_count, write_size};

/// Bytes in two borrowed pieces.
#[derive(Clone, Copy)]
struct Halves<'a> {
    first: &'a [u8],
    second: &'a [u8],
    ghost fits: { length first.now < 0x1000 },
    ghost fits_second: { length second.now < 0x1000 },
}

impl<'a> Blob for Halves<'a> {
    ghost use Rattle.std.specs.Prelude.{refl, ◌++◌, [], ◌∷◌, slice_index_or};

    ghost bytes = { λ h. h.first.now ++ h.second.now };

    ghost count = { λ _. 2 };

    ghost part = { λ h k. slice_index_or (h.first.now ∷ h.second.now ∷ []) k [] };

    ghost joins = { λ _. refl };

    fn len(&self) -> usize {
        self.first.len() + self.second.len()
    }

    fn pieces(&self) -> usize {
        2
    }

    fn piece(&self, k: usize) -> &[u8] {
        if k == 0 { self.first } else { self.second }
    }
}

fn prop<B: Blob>(id: u16, value: Value<B>) -> Prop<B>
    requires id { id < 0x8000 }
    requires value { IsValue (value_of B.bytes value) }
{
    Prop {
        key: Key::Id(id),
        value,
    }
}

/// Texts and bytes in two pieces.
fn texts(alloc: Global) -> Result<Props<Halves<'static>>, InsertEnd<Halves<'static>>> {
    let mut props = Props::new(alloc);
    props.insert_sorted(prop(
        5,
        Value::Bytes {
            kind: Kind::String8,
            bytes: Halves {
                first: b"a\"\\",
                second: b"\xe9~",
            },
        },
    ))?;
    props.insert_sorted(prop(
        6,
        Value::Bytes {
            kind: Kind::String,
            bytes: Halves {
                first: b"A\0\xac",
                second: b"\x20",
            },
        },
    ))?;
    props.insert_sorted(prop(
        8,
        Value::Bytes {
            kind: Kind::Binary,
            bytes: Halves {
                first: b"0123456789abcdef",
                second: b"0123456789abcdefg",
            },
        },
    ))?;
    Ok(props)
}

/// A value of each sort.
fn values(alloc: Global) -> Result<Props<Halves<'static>>, InsertEnd<Halves<'static>>> {
    let mut props = texts(alloc)?;
    props.insert_sorted(prop(
        2,
        Value::Number {
            kind: Kind::Integer16,
            bits: 0xfffe,
        },
    ))?;
    props.insert_sorted(prop(
        3,
        Value::Number {
            kind: Kind::Boolean,
            bits: 1,
        },
    ))?;
    props.insert_sorted(prop(
        4,
        Value::Number {
            kind: Kind::Floating64,
            bits: 0x3ff8_0000_0000_0000,
        },
    ))?;
    props.insert_sorted(prop(
        7,
        Value::Number {
            kind: Kind::Time,
            bits: u64::MAX,
        },
    ))?;
    let mut numbers = Numbers::new(alloc);
    numbers.push(1)?;
    numbers.push(0xffff_ffff)?;
    props.insert_sorted(prop(
        9,
        Value::Numbers {
            kind: Kind::MultipleInteger32,
            list: numbers,
        },
    ))?;
    Ok(props)
}

/// A list of one text of 8-bit characters.
fn named(
    alloc: Global,
    name: &'static [u8],
) -> Result<Props<Halves<'static>>, InsertEnd<Halves<'static>>>
    requires { length name.now < 0x1000 }
{
    let mut props = Props::new(alloc);
    props.insert_sorted(prop(
        0x3001,
        Value::Bytes {
            kind: Kind::String8,
            bytes: Halves {
                first: name,
                second: b"",
            },
        },
    ))?;
    Ok(props)
}

/// A list of one number.
fn numbered(
    alloc: Global,
    bits: u32,
) -> Result<Props<Halves<'static>>, InsertEnd<Halves<'static>>> {
    let mut props = Props::new(alloc);
    props.insert_sorted(prop(
        0x37,
        Value::Number {
            kind: Kind::Integer32,
            bits: u64::from(bits),
        },
    ))?;
    Ok(props)
}

/// A message of a list alone.
fn of_list<B: Blob>(alloc: Global, props: Props<B>) -> Message<B> {
    Message {
        props,
        recipients: Recipients::new(alloc),
        attachments: Attachments::new(alloc),
    }
}

/// A message with values, a recipient, and a message in an attachment.
fn sample(alloc: Global) -> Result<Message<Halves<'static>>, InsertEnd<Halves<'static>>> {
    let mut recipients = Recipients::new(alloc);
    recipients.push(named(alloc, b"r")?)?;
    let mut attachments = Attachments::new(alloc);
    let inner = of_list(alloc, numbered(alloc, 1)?);
    attachments.push(Attachment {
        props: Props::new(alloc),
        body: Body::Message(boxed(alloc, inner)?),
    })?;
    Ok(Message {
        props: values(alloc)?,
        recipients,
        attachments,
    })
}

fn boxed<B: Blob>(alloc: Global, message: Message<B>) -> Result<Box<Message<B>>, NoMemory> {
    Ok(Box::new(alloc, message)?)
}

fn printed<P: Writing>(alloc: Global, text: &P) -> Result<Vec<u8>, Fail> {
    let mut sink = MemorySink::new(alloc, 2000, Vec::new(alloc))?;
    write_gathered(text, &mut sink)?;
    Ok(sink.bytes().to_vec(alloc)?)
}

#[test]
fn texts_of_a_message(rt: HostRuntime) -> Result<(), Fail> {
    let alloc = rt.alloc();
    let tree = Tree::new(sample(alloc).ok().ok_or("a message")?)
        .ok()
        .ok_or("a tree")?;
    let shown = printed(alloc, &ShowText { tree: &tree })?;
    let wanted =
        "message\n  0002 Integer16 -2\n  0003 Boolean true\n  0004 Floating64 3FF8000000000000\n  0005 String8 \"a\\22\\5C\\E9~\"\n  0006 String \"A\\20AC\"\n  0007 Time 18446744073709551615\n  0008 Binary 33 bytes 3031323334353637383961626364656630313233343536373839616263646566\n  0009 MultipleInteger32 [1, -1]\n  recipient 0\n    3001 String8 \"r\"\n  attachment 0\n    message\n      0037 Integer32 1\n";
    assert_eq!(rt; shown.as_slice(), wanted.as_bytes());
    Ok(())
}

/// A message with a store of one stream in an attachment.
fn with_store(alloc: Global) -> Result<Tree<&'static [u8]>, Fail> {
    let mut store = Store::new(alloc, [0; 16]);
    let member = Member::Stream(b"abc".as_slice());
    store.insert(&[0x61], member).ok().ok_or("a store")?;
    let mut top = of_list(alloc, Props::new(alloc));
    top.attachments.push(Attachment {
        props: Props::new(alloc),
        body: Body::Store(store),
    })?;
    Ok(Tree::new(top).ok().ok_or("a tree")?)
}

#[test]
fn texts_of_a_store(rt: HostRuntime) -> Result<(), Fail> {
    let alloc = rt.alloc();
    let tree = with_store(alloc)?;
    let shown = printed(alloc, &ShowText { tree: &tree })?;
    let wanted = "message\n  attachment 0\n    storage 1 streams 3 bytes\n";
    assert_eq!(rt; shown.as_slice(), wanted.as_bytes());
    let mut passed = PassedList::new(alloc);
    passed.push(Passed {
        attribute: true,
        what: 0x0006_9005,
        offset: 17,
    })?;
    passed.push(Passed {
        attribute: false,
        what: 0x3701_000d,
        offset: 99,
    })?;
    let names = names(alloc, &tree)?;
    let text = CheckText::new(TreeCarrier::Tnef, &tree, &passed, &names);
    let checked = printed(alloc, &text)?;
    let wanted =
        "carrier tnef\nmessages 1\nrecipients 0\nattachments 1\nproperties 0\nnames 0\ndepth 0\npassed attribute 00069005 at 17\npassed property 3701000D at 99\n";
    assert_eq!(rt; checked.as_slice(), wanted.as_bytes());
    Ok(())
}

#[test]
fn lines_of_a_sample(rt: HostRuntime) -> Result<(), Fail> {
    let alloc = rt.alloc();
    let mut sink = MemorySink::new(alloc, 100, Vec::new(alloc))?;
    write_count(&mut sink, b"sample", 1)?;
    write_size(&mut sink, b"tnef", 410, 10968)?;
    assert_eq!(rt;
        sink.bytes(),
        "sample 1\ntnef 410 bytes sum 10968\n".as_bytes()
    );
    Ok(())
}
