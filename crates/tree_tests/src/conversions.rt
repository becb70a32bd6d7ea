//! Texts of 8-bit characters that become texts of 16-bit units.
ghost use Rattle.std.specs.Prelude.{◌<◌};
ghost use Rattle.carrier_model.specs.Values.{IsValue};
ghost use Rattle.prop_values.specs.Meaning.{value_of};

use msg_tree::{Attachment, Attachments, Body, Message, Recipients, Tree, copy_owned, same};
use prop_names::Key;
use prop_values::{Kind, Prop, Props, Value};
use std::alloc::Global;
use std::test::*;
use tree_text8::{Page, TextEnd, Unmapped, Why, is_unicode, page_of, unicode_in_place, unicode_of};

type Text = &'static [u8];

fn prop(id: u16, value: Value<Text>) -> Prop<Text>
    requires id { id < 0x8000 }
    requires value { IsValue (value_of (λ s. s.now) value) }
{
    Prop {
        key: Key::Id(id),
        value,
    }
}

/// A subject of at most eight bytes.
fn subject(bytes: Text) -> Result<Prop<Text>, Fail> {
    if bytes.len() > 8 {
        return Err("too long".into());
    }
    let kind = Kind::String8;
    Ok(prop(0x0037, Value::Bytes { kind, bytes }))
}

/// A subject in at most four units.
fn wide_subject(bytes: Text) -> Result<Prop<Text>, Fail> {
    if bytes.len() > 8 || bytes.len() % 2 != 0 {
        return Err("no units".into());
    }
    let kind = Kind::String;
    Ok(prop(0x0037, Value::Bytes { kind, bytes }))
}

/// A message of one property, and perhaps the number of its page.
fn message_of(alloc: Global, text: Prop<Text>, page: Option<u32>) -> Result<Message<Text>, Fail> {
    let mut props = Props::new(alloc);
    props.insert_sorted(text).ok().ok_or("a text")?;
    if let Some(number) = page {
        let page = prop(
            0x3FFD,
            Value::Number {
                kind: Kind::Integer32,
                bits: u64::from(number),
            },
        );
        props.insert_sorted(page).ok().ok_or("a page")?;
    }
    Ok(Message {
        props,
        recipients: Recipients::new(alloc),
        attachments: Attachments::new(alloc),
    })
}

/// The tree of such a message.
fn tree_of(alloc: Global, text: Prop<Text>, page: Option<u32>) -> Result<Tree<Text>, Fail> {
    let message = message_of(alloc, text, page)?;
    Ok(Tree::new(message).ok().ok_or("a tree")?)
}

#[test]
fn pages(rt: HostRuntime) {
    let rows = [
        (1252, Some(Page::Windows1252)),
        (28591, Some(Page::Latin1)),
        (20127, Some(Page::Ascii)),
        (65001, Some(Page::Utf8)),
        (932, None),
    ];
    for (number, page) in rows {
        assert_eq!(rt; page_of(number), page);
    }
}

#[test]
fn texts_in_units(rt: HostRuntime) -> Result<(), Fail> {
    let texts: [(u32, Text, Text); 5] = [
        (1252, b"\x93A\x94\xff", b"\x1c\x20A\0\x1d\x20\xff\0"),
        (28591, b"A\x81\xe4", b"A\0\x81\0\xe4\0"),
        (20127, b"A~", b"A\0~\0"),
        (65001, b"\xf0\x9f\x93\xa7", b"\x3d\xd8\xe7\xdc"),
        (65001, b"A\xc3\xa4\xe2\x82\xac", b"A\0\xe4\0\xac\x20"),
    ];
    for (number, bytes, wide) in texts {
        let tree = tree_of(rt.alloc(), subject(bytes)?, Some(number))?;
        let expected = tree_of(rt.alloc(), wide_subject(wide)?, Some(number))?;
        let made = unicode_of(rt.alloc(), &tree)?;
        assert!(rt; same(&made, &expected), "{number}");
        assert!(rt; !is_unicode(&tree) && is_unicode(&made), "{number}");
    }
    Ok(())
}

#[test]
fn first_unmapped_places(rt: HostRuntime) -> Result<(), Fail> {
    let texts: [(Option<u32>, Text, Why, u64, u32); 12] = [
        (None, b"A\x81", Why::Byte, 1, 1252),
        (Some(1252), b"\x80\x9d", Why::Byte, 1, 1252),
        (Some(20127), b"AB\x80", Why::Byte, 2, 20127),
        (Some(65001), b"A\x81", Why::Byte, 1, 65001),
        // Overlong.
        (Some(65001), b"A\xc1\x81", Why::Byte, 1, 65001),
        (Some(65001), b"\xe0\x9f\xbf", Why::Byte, 0, 65001),
        (Some(65001), b"\xf0\x8f\xbf\xbf", Why::Byte, 0, 65001),
        // A surrogate.
        (Some(65001), b"\xc3\xa4\xed\xa0\x80", Why::Byte, 2, 65001),
        // Above 10FFFF.
        (Some(65001), b"A\xf4\x90\x80\x80", Why::Byte, 1, 65001),
        // Cut off.
        (Some(65001), b"AB\xe2\x82", Why::Byte, 2, 65001),
        (Some(65001), b"\xf0\x9f\x93A", Why::Byte, 0, 65001),
        (Some(932), b"A\x81", Why::Page, 0, 932),
    ];
    for (number, bytes, why, at, page) in texts {
        let tree = tree_of(rt.alloc(), subject(bytes)?, number)?;
        let end = TextEnd::Unmapped(Unmapped {
            why,
            property: 0,
            element: 0,
            at,
            page,
        });
        assert!(rt;
            unicode_of(rt.alloc(), &tree).err() == Some(end),
            "{page} {at}"
        );
    }
    Ok(())
}

/// A message in UTF-8 with a message in an attachment that names no page.
fn nested(alloc: Global, outer: Prop<Text>, inner: Prop<Text>) -> Result<Tree<Text>, Fail> {
    let mut message = message_of(alloc, outer, Some(65001))?;
    let inner = message_of(alloc, inner, None)?;
    let attachment = Attachment {
        props: Props::new(alloc),
        body: Body::Message(Box::new(alloc, inner)?),
    };
    message.attachments.push(attachment)?;
    let tree = Tree::new(message).ok().ok_or("a tree")?;
    Ok(tree)
}

#[test]
fn a_message_in_another(rt: HostRuntime) -> Result<(), Fail> {
    let alloc = rt.alloc();
    let tree = nested(alloc, subject(b"\xc3\xa4")?, subject(b"\xe2\x82\xac")?)?;
    let expected = nested(alloc, wide_subject(b"\xe4\0")?, wide_subject(b"\xac\x20")?)?;
    let made = unicode_of(alloc, &tree)?;
    assert!(rt; same(&made, &expected));
    let in_place = unicode_in_place(alloc, copy_owned(alloc, &tree)?)?;
    assert!(rt; same(&in_place, &expected));
    Ok(())
}
