ghost use Rattle.std.specs.Prelude.{◌<◌, length};

use carrier_io::{Blob, MemorySink};
use msg_tree::{Attachment, Attachments, Body, Message, Recipients, Store, Tree, fits_tnef, names};
use prop_names::Key;
use prop_values::{Kind, Prop, Props, Value};
use std::alloc::Global;
use std::cell::Cell;
use std::test::*;
use tnef_attributes::sum16;
use tnef_writer::TnefPlan;

/// A stream with the code page 1252 and one property, id 0017 and value 2.
const ONE_PROPERTY: [u8; 63] = [
    0x78, 0x9f, 0x3e, 0x22, 1, 0, 1, 0x06, 0x90, 0x08, 0, 4, 0, 0, 0, 0, 0, 1, 0, 1, 0, 1, 0x07,
    0x90, 0x06, 0, 8, 0, 0, 0, 0xe4, 4, 0, 0, 0, 0, 0, 0, 0xe8, 0, 1, 3, 0x90, 6, 0, 12, 0, 0, 0,
    1, 0, 0, 0, 3, 0, 0x17, 0, 2, 0, 0, 0, 0x1d, 0,
];

/// What stands before the compound file in the stream of a message whose one attachment is a store.
const FRONT: [u8; 121] = [
    0x78, 0x9f, 0x3e, 0x22, 1, 0, 1, 0x06, 0x90, 0x08, 0, 4, 0, 0, 0, 0, 0, 1, 0, 1, 0, 1, 0x07,
    0x90, 0x06, 0, 8, 0, 0, 0, 0xe4, 4, 0, 0, 0, 0, 0, 0, 0xe8, 0, 1, 3, 0x90, 6, 0, 4, 0, 0, 0, 0,
    0, 0, 0, 0, 0, 2, 2, 0x90, 6, 0, 14, 0, 0, 0, 1, 0, 0xff, 0xff, 0xff, 0xff, 0, 0, 0, 0, 0, 0,
    0, 0, 0xfd, 3, 2, 5, 0x90, 6, 0, 0x20, 6, 0, 0, 1, 0, 0, 0, 0x0d, 0, 1, 0x37, 1, 0, 0, 0, 0x10,
    6, 0, 0, 0x0b, 0, 0, 0, 0, 0, 0, 0, 0xc0, 0, 0, 0, 0, 0, 0, 0x46,
];

/// A message without attachments.
fn message<B: Blob>(alloc: Global) -> Message<B> {
    Message {
        props: Props::new(alloc),
        recipients: Recipients::new(alloc),
        attachments: Attachments::new(alloc),
    }
}

/// Attaches a store without members, whose class has equal bytes.
fn attach_store(alloc: Global, message: &mut Message<Vec<u8>>, class: u8) -> Result<(), Fail> {
    let attachment = Attachment {
        props: Props::new(alloc),
        body: Body::Store(Store::new(alloc, [class; 16])),
    };
    message.attachments.push(attachment)?;
    Ok(())
}

/// Attaches a message.
fn attach_message(
    alloc: Global,
    message: &mut Message<Vec<u8>>,
    inner: Message<Vec<u8>>,
) -> Result<(), Fail> {
    let attachment = Attachment {
        props: Props::new(alloc),
        body: Body::Message(Box::new(alloc, inner)?),
    };
    message.attachments.push(attachment)?;
    Ok(())
}

/// The stream of a message.
fn written(alloc: Global, message: Message<Vec<u8>>) -> Result<Vec<u8>, Fail> {
    let tree = Tree::new(message).ok().ok_or("a tree")?;
    let names = names(alloc, &tree)?;
    if fits_tnef(&tree, &names).is_some() {
        return Err("few names".into());
    }
    let plan = TnefPlan::new(alloc, &tree, &names)?;
    let size = plan.size() as usize;
    let mut sink = MemorySink::new(alloc, size, Vec::new(alloc))?;
    plan.write(&mut sink)?;
    Ok(sink.bytes().to_vec(alloc)?)
}

#[test]
fn a_property_is_written(rt: HostRuntime) -> Result<(), Fail> {
    let alloc = rt.alloc();
    let mut top = message(alloc);
    let importance = Prop {
        key: Key::Id(0x0017),
        value: Value::Number {
            kind: Kind::Integer32,
            bits: 2,
        },
    };
    top.props.insert_sorted(importance).ok().ok_or("a number")?;
    let stream = written(alloc, top)?;
    assert_eq!(rt; stream.as_slice(), ONE_PROPERTY.as_slice());
    Ok(())
}

#[test]
fn a_store_is_attached(rt: HostRuntime) -> Result<(), Fail> {
    let alloc = rt.alloc();
    let mut top = message(alloc);
    attach_store(alloc, &mut top, 0)?;
    let stream = written(alloc, top)?;
    assert_eq!(rt; stream.len(), 1659);
    assert_eq!(rt; stream.get(..121), Some(&FRONT[..]));
    assert_eq!(rt; sum16(&stream), 481);
    Ok(())
}

#[test]
fn a_store_three_levels_down(rt: HostRuntime) -> Result<(), Fail> {
    let alloc = rt.alloc();
    let mut inner = message(alloc);
    attach_store(alloc, &mut inner, 7)?;
    for _ in 0..3 {
        let mut outer = message(alloc);
        attach_message(alloc, &mut outer, inner)?;
        inner = outer;
    }
    let stream = written(alloc, inner)?;
    assert_eq!(rt; stream.len(), 2031);
    assert_eq!(rt; stream.get(1588..1604), Some(&[7; 16][..]));
    assert_eq!(rt; sum16(&stream), 11414);
    Ok(())
}

#[test]
fn stores_in_order(rt: HostRuntime) -> Result<(), Fail> {
    let alloc = rt.alloc();
    let mut inner = message(alloc);
    attach_store(alloc, &mut inner, 3)?;
    let mut top = message(alloc);
    attach_store(alloc, &mut top, 1)?;
    attach_message(alloc, &mut top, inner)?;
    attach_store(alloc, &mut top, 2)?;
    let stream = written(alloc, top)?;
    assert_eq!(rt; stream.len(), 4991);
    for (at, class) in [(1225, 1), (2950, 3), (4557, 2)] {
        assert_eq!(rt; stream.get(at..at + 16), Some(&[class; 16][..]));
    }
    assert_eq!(rt; sum16(&stream), 2607);
    Ok(())
}

/// Bytes that count how often a piece of them was asked for.
#[derive(Drop)]
struct Counted<'a> {
    bytes: &'a [u8],
    asked: &'a Cell<u32>,
}

impl Blob for Counted<'_> {
    ghost use Rattle.std.specs.Prelude.{refl};

    ghost bytes = { λ c. c.bytes.now };

    ghost count = { λ _. 1 };

    ghost part = { λ c _. c.bytes.now };

    ghost joins = { λ _. refl };

    fn len(&self) -> usize {
        self.bytes.len()
    }

    fn pieces(&self) -> usize {
        1
    }

    fn piece(&self, _k: usize) -> &[u8] {
        self.asked.set(self.asked.get().saturating_add(1));
        self.bytes
    }
}

/// A tree with one text, the subject.
fn with_subject<B: Blob>(alloc: Global, bytes: B) -> Result<Tree<B>, Fail>
    requires { length (B.bytes bytes) < 100 }
{
    let mut top = message(alloc);
    let kind = Kind::String8;
    let subject = Prop {
        key: Key::Id(0x0037),
        value: Value::Bytes { kind, bytes },
    };
    top.props.insert_sorted(subject).ok().ok_or("a text")?;
    Ok(Tree::new(top).ok().ok_or("a tree")?)
}

#[test]
fn a_text_is_asked_for_in_writing(rt: HostRuntime) -> Result<(), Fail> {
    let asked = Cell::new(0);
    let text = Counted {
        bytes: b"Agenda",
        asked: &asked,
    };
    let tree = with_subject(rt.alloc(), text)?;
    let names = names(rt.alloc(), &tree)?;
    if fits_tnef(&tree, &names).is_some() {
        return Err("few names".into());
    }
    let plan = TnefPlan::new(rt.alloc(), &tree, &names)?;
    let mut sink = MemorySink::new(rt.alloc(), plan.size() as usize, Vec::new(rt.alloc()))?;
    assert_eq!(rt; asked.get(), 0);
    plan.write(&mut sink)?;
    assert!(rt; asked.get() > 0);
    Ok(())
}
