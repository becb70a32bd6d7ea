use carrier_io::{MemorySink, Units};
use json_writer::{append_digits, append_name, append_number, append_string, append_text};
use msg_tree::{Attachment, Attachments, Body, Member, Message, Recipients, Store, Tree};
use prop_names::{Guid, Key, Name};
use prop_values::{InsertEnd, Kind, Prop, Props, Value};
use std::alloc::Global;
use std::test::*;
use tree_json::{json_length, json_of};

const SET: Guid = Guid([0x62; 16]);

/// The GUID of the bytes 0 to 15.
const RISING: Guid = Guid([0, 1, 2, 3, 4, 5, 6, 7, 8, 9, 10, 11, 12, 13, 14, 15]);

fn empty(alloc: Global) -> Message<Vec<u8>> {
    Message {
        props: Props::new(alloc),
        recipients: Recipients::new(alloc),
        attachments: Attachments::new(alloc),
    }
}

/// A message with one Integer32 property.
fn small(alloc: Global) -> Result<Message<Vec<u8>>, InsertEnd<Vec<u8>>> {
    let mut message = empty(alloc);
    message.props.insert_sorted(Prop {
        key: Key::Id(0x0017),
        value: Value::Number {
            kind: Kind::Integer32,
            bits: 2,
        },
    })?;
    Ok(message)
}

#[test]
fn the_json_of_one_property(rt: HostRuntime) -> Result<(), Fail> {
    let alloc = rt.alloc();
    let message = small(alloc).ok().ok_or("a message")?;
    let tree = Tree::new(message).ok().ok_or("a tree")?;
    let text = json_of(alloc, &tree)?;
    assert_eq!(rt;
        text.as_str(),
        "{\"attachments\":[],\"properties\":[{\"key\":\"0017\",\"kind\":\"Integer32\",\"value\":2}],\"recipients\":[]}"
    );
    assert_eq!(rt; json_length(&tree).ok(), Some(93));
    Ok(())
}

#[test]
fn parts_of_json_texts(rt: HostRuntime) -> Result<(), Fail> {
    let alloc = rt.alloc();
    let mut sink = MemorySink::new(alloc, 100, Vec::new(alloc))?;
    let mut count = 0;
    append_number(&mut sink, &mut count, 18_446_744_073_709_551_615)?;
    append_digits(&mut sink, &mut count, &[0, 255].as_slice())?;
    append_string(&mut sink, &mut count, b"\"\\/\n\x1f\x7f")?;
    append_text(&mut sink, &mut count, &[0x22, 0, 0xac, 0x20].as_slice())?;
    append_name(&mut sink, &mut count, &[0xdc00])?;
    let wanted =
        "18446744073709551615\"00ff\"\"\\\"\\\\/\\n\\u001f\x7f\"\"\\\"\u{20ac}\"{\"units\":\"00dc\"}";
    assert_eq!(rt; sink.bytes(), wanted.as_bytes());
    assert_eq!(rt; count, wanted.len() as u64);
    Ok(())
}

/// A store with a stream and an empty storage.
fn store(alloc: Global) -> Result<Store<Vec<u8>>, Fail> {
    let mut store = Store::new(alloc, [2; 16]);
    let bytes = Vec::from_slice(alloc, &[1, 255])?;
    let inner = Store::new(alloc, [1; 16]);
    store
        .insert(&[0x62], Member::Stream(bytes))
        .ok()
        .ok_or("a stream")?;
    store
        .insert(&[0x43, 0x43], Member::Storage(inner))
        .ok()
        .ok_or("a storage")?;
    Ok(store)
}

/// A message with a text, a name that is no well-formed text, a recipient, and a store in an attachment.
fn larger(alloc: Global) -> Result<Message<Vec<u8>>, Fail> {
    let mut message = empty(alloc);
    let bytes = Vec::from_slice(alloc, &[0xe9, 0, 0x3d, 0xd8, 0, 0xde])?;
    let text = Prop {
        key: Key::Id(0x0037),
        value: Value::Bytes {
            kind: Kind::String,
            bytes,
        },
    };
    message.props.insert_sorted(text).ok().ok_or("a text")?;
    let mut units = Units::new(alloc);
    units.push(0xd800)?;
    let name = Name::of_text(alloc, SET, units)?;
    let named = Prop {
        key: Key::Named(name),
        value: Value::Guid(RISING),
    };
    message.props.insert_sorted(named).ok().ok_or("a name")?;
    let mut recipient = Props::new(alloc);
    let number = Prop {
        key: Key::Named(Name::Number {
            set: SET,
            number: 0x820d,
        }),
        value: Value::Guid(RISING),
    };
    recipient.insert_sorted(number).ok().ok_or("a number")?;
    message.recipients.push(recipient)?;
    let attachment = Attachment {
        props: Props::new(alloc),
        body: Body::Store(store(alloc)?),
    };
    message.attachments.push(attachment)?;
    Ok(message)
}

#[test]
fn the_json_of_texts_and_a_store(rt: HostRuntime) -> Result<(), Fail> {
    let message = larger(rt.alloc())?;
    let tree = Tree::new(message).ok().ok_or("a tree")?;
    let text = json_of(rt.alloc(), &tree)?;
    assert_eq!(rt;
        text.as_str(),
        "{\"attachments\":[{\"properties\":[],\"store\":{\"class\":\"02020202020202020202020202020202\",\"members\":[{\"data\":\"01ff\",\"path\":[\"b\"]},{\"class\":\"01010101010101010101010101010101\",\"path\":[\"CC\"]}]}}],\"properties\":[{\"key\":\"0037\",\"kind\":\"String\",\"value\":\"\u{e9}\u{1f600}\"},{\"key\":{\"set\":\"62626262626262626262626262626262\",\"text\":{\"units\":\"00d8\"}},\"kind\":\"Guid\",\"value\":\"000102030405060708090a0b0c0d0e0f\"}],\"recipients\":[[{\"key\":{\"number\":33293,\"set\":\"62626262626262626262626262626262\"},\"kind\":\"Guid\",\"value\":\"000102030405060708090a0b0c0d0e0f\"}]]}"
    );
    Ok(())
}
