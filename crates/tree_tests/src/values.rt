use json::Scratch;
use json_values::{TextEnd, as_items, as_str, as_u64, get, has_only, is_number, parse, unboxed};
use std::test::*;

#[test]
fn parts_of_a_value(rt: HostRuntime) -> Result<(), Fail> {
    let text = "{\"b\":[1,-2,\"x\\u0041\"],\"a\":1,\"a\":18446744073709551615}";
    let mut scratch = Scratch::new(rt.alloc());
    let value = parse(rt.alloc(), text.as_bytes(), &mut scratch)?;
    assert!(rt; has_only(&value, &["a", "b"]));
    assert!(rt; !has_only(&value, &["a"]));
    let last = get(&value, "a").ok_or("a member")?;
    assert_eq!(rt; as_u64(last), Some(u64::MAX));
    let items = unboxed(as_items(get(&value, "b").ok_or("a member")?).ok_or("items")?);
    assert_eq!(rt; items.len(), 3);
    assert!(rt; is_number(&items[1]) && as_u64(&items[1]).is_none());
    assert_eq!(rt; as_str(&items[2]), Some("xA"));
    Ok(())
}

#[test]
fn texts_without_a_value(rt: HostRuntime) -> Result<(), Fail> {
    for text in [
        &b"[1"[..],
        b"[1e999]",
        b"{\"a\":-1e999,\"a\":1}",
        b"\"\xff\"",
        b"1 2",
    ] {
        let mut scratch = Scratch::new(rt.alloc());
        assert_eq!(rt;
            parse(rt.alloc(), text, &mut scratch).err(),
            Some(TextEnd::NotJson)
        );
    }
    Ok(())
}
