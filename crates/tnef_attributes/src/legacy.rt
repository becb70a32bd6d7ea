//! The properties that older attributes stand for by themselves.
ghost use Rattle.std.specs.Prelude.{◌≡◌, ◌<◌, ◌≤◌, ◌++◌, length, IfSome, Some};
ghost use Rattle.std.specs.Option.{option_map};
ghost use Rattle.tnef_model.specs.LegacyAttributes as plain;
ghost use Rattle.carrier_model.specs.Kinds.{without_null as plain_without_null};
ghost use Rattle.carrier_model.specs.Values.{IsValue};
ghost use Rattle.tnef_attributes.specs.Rules.{plain_rule, plain_value, rule_among};

use crate::attributes::Attribute;
use crate::classes::class_of;
use crate::ids;
use crate::moments::moment;
use carrier_io::u32_at;
use prop_names::Key;
use prop_values::{Kind, Prop, Value};

/// How the value of a property is found in an attribute's bytes.
#[derive(Clone, Copy, Debug)]
enum Rule {
    Class,
    Text,
    Binary,
    Date,
    Page,
    Position,
}

/// The id of the property that an attribute stands for, and how its value is found (MS-OXTNEF, section 2.1.3.3).
fn rule_for(attribute: u32) -> Option<(u16, Rule)>
    ensures rule { option_map (λ r. (r.0, plain_rule r.1)) result ≡ rule_among (plain.message_rows ++ plain.attachment_rows) attribute }
    ensures unnamed { IfSome result (λ r. r.0 < 0x8000) }
{
    match attribute {
        ids::CODE_PAGE => Some((0x3ffd, Rule::Page)),
        ids::MESSAGE_CLASS => Some((0x001a, Rule::Class)),
        ids::SUBJECT => Some((0x0037, Rule::Text)),
        ids::BODY => Some((0x1000, Rule::Text)),
        ids::DATE_SENT => Some((0x0039, Rule::Date)),
        ids::DATE_RECEIVED => Some((0x0e06, Rule::Date)),
        ids::DATE_MODIFIED => Some((0x3008, Rule::Date)),
        ids::RENDERING => Some((0x370b, Rule::Position)),
        ids::ATTACH_DATA => Some((0x3701, Rule::Binary)),
        ids::ATTACH_TITLE => Some((0x3704, Rule::Text)),
        ids::ATTACH_META_FILE => Some((0x3709, Rule::Binary)),
        ids::ATTACH_TRANSPORT_FILENAME => Some((0x370c, Rule::Text)),
        ids::ATTACH_CREATE_DATE => Some((0x3007, Rule::Date)),
        ids::ATTACH_MODIFY_DATE => Some((0x3008, Rule::Date)),
        _ => None,
    }
}

/// The bytes without one null at their end.
fn without_null(bytes: &[u8]) -> &[u8]
    ensures text { result.now ≡ plain_without_null 1 bytes.entry.now }
    ensures short { length result.now ≤ length bytes.entry.now }
{
    if bytes.is_empty() {
        return bytes;
    }
    let (front, end) = bytes.split_at(bytes.len() - 1);
    if end[0] == 0 { front } else { bytes }
}

/// The code page that an attribute gives: its first four bytes, where these are neither 0 nor 1252.
fn page<'a>(bytes: &[u8]) -> Option<Value<&'a [u8]>>
    ensures value { option_map plain_value result ≡ plain.value_by plain.page bytes.now }
    ensures fits { IfSome result (λ v. IsValue (plain_value v)) }
{
    if bytes.len() < 4 {
        return None;
    }
    let page = u32_at(bytes, 0);
    if page == 0 || page == 1252 {
        return None;
    }
    Some(Value::Number {
        kind: Kind::Integer32,
        bits: u64::from(page),
    })
}

/// Where an attachment is shown: the four bytes behind the first two, where these are not all ones.
fn position<'a>(bytes: &[u8]) -> Option<Value<&'a [u8]>>
    ensures value { option_map plain_value result ≡ plain.value_by plain.position bytes.now }
    ensures fits { IfSome result (λ v. IsValue (plain_value v)) }
{
    if bytes.len() < 6 {
        return None;
    }
    let position = u32_at(bytes, 2);
    if position == 0xffff_ffff {
        return None;
    }
    Some(Value::Number {
        kind: Kind::Integer32,
        bits: u64::from(position),
    })
}

/// A date, read as universal time.
fn date<'a>(bytes: &[u8]) -> Option<Value<&'a [u8]>>
    ensures value { option_map plain_value result ≡ plain.value_by plain.date bytes.now }
    ensures fits { IfSome result (λ v. IsValue (plain_value v)) }
{
    let bits = moment(bytes)?;
    Some(Value::Number {
        kind: Kind::Time,
        bits,
    })
}

/// A text without its null.
fn text(bytes: &[u8]) -> Value<&[u8]>
    requires { length bytes.now < 268435456 }
    ensures value { Some (plain_value result) ≡ plain.value_by plain.text bytes.entry.now }
    ensures fits { IsValue (plain_value result) }
{
    Value::Bytes {
        kind: Kind::String8,
        bytes: without_null(bytes),
    }
}

/// The class that a text without its null names or stands for.
fn class(bytes: &[u8]) -> Value<&[u8]>
    requires { length bytes.now < 268435456 }
    ensures value { Some (plain_value result) ≡ plain.value_by plain.class bytes.entry.now }
    ensures fits { IsValue (plain_value result) }
{
    Value::Bytes {
        kind: Kind::String8,
        bytes: class_of(without_null(bytes)),
    }
}

/// The value that an attribute's bytes give by a rule, if they give one.
fn value_by(rule: Rule, bytes: &[u8]) -> Option<Value<&[u8]>>
    requires { length bytes.now < 268435456 }
    ensures value { option_map plain_value result ≡ plain.value_by (plain_rule rule) bytes.entry.now }
    ensures fits { IfSome result (λ v. IsValue (plain_value v)) }
{
    match rule {
        Rule::Class => Some(class(bytes)),
        Rule::Text => Some(text(bytes)),
        Rule::Binary => Some(Value::Bytes {
            kind: Kind::Binary,
            bytes,
        }),
        Rule::Date => date(bytes),
        Rule::Page => page(bytes),
        Rule::Position => position(bytes),
    }
}

/// The property that an attribute stands for by itself: none where it stands for none, where its bytes are no date, no code
/// page or no position, and where the code page is 0 or 1252 (MS-OXTNEF, section 2.1.3.3).
pub fn legacy_prop<'a>(attribute: &Attribute<'a>) -> Option<Prop<&'a [u8]>>
    requires { length attribute.now.bytes.now < 268435456 }
    ensures { result ≡ plain.legacy_prop attribute.now.id attribute.now.bytes.now }
{
    let (id, rule) = rule_for(attribute.id)?;
    let value = value_by(rule, attribute.bytes)?;
    Some(Prop {
        key: Key::Id(id),
        value,
    })
}
