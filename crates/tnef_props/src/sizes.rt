//! How long a list is as it is written. A number that is above the greatest `u64` stays there.
ghost use Rattle.std.specs.Prelude.{◌≡◌, ◌+◌, ◌*◌, ◌<◌, ◌≤◌, ℕ, List, Option, All, length, flat_map};
ghost use Rattle.std.specs.Option.{option_map};
ghost use Rattle.carrier_model.specs.Keys as keys;
ghost use Rattle.tnef_model.specs.TnefCanonical as canon;
ghost use Rattle.carrier_model.specs.Bytes as octets;
ghost use Rattle.carrier_model.specs.Totals.{capped};
ghost use Rattle.carrier_model.specs.Values as plain;
ghost use Rattle.prop_names.specs.Meaning.{key_of, name_of};
ghost use Rattle.prop_values.specs.Meaning.{value_of};
ghost use Rattle.prop_values.specs.Kinds.{kind_number};
ghost use Rattle.tnef_props.specs.Written.{text_field, object_length};

use crate::writing_values::is_wide;
use carrier_io::{Blob, pad4};
use prop_names::{Key, Name};
use prop_values::{Kind, Parts, Prop, Props, Value};

/// The bytes of a text of so many bytes with its size, its null and padding.
fn text_size(len: usize, null: usize) -> u64
    requires null { null ≤ 2 }
    requires short { len < 0x4000_0000 }
    ensures size { (x : List ℕ) → length x ≡ len → result ≡ length (text_field null x) }
    ensures few { result < 0x5000_0000 }
{
    let size = (len + null) as u64;
    4 + size + pad4(size)
}

/// The bytes of several texts.
fn texts_size<B: Blob>(null: usize, list: &Parts<B>) -> u64
    requires null { null ≤ 2 }
    requires short { All (λ x. length x < 0x4000_0000) list.now }
    ensures { result ≡ capped (length (flat_map (text_field null) list.now)) }
{
    let mut size = 0u64;
    for k in 0..list.len() {
        size = size.saturating_add(text_size(list.get(k).len(), null));
    }
    size
}

/// The bytes of so many numbers of the kind, each with its padding.
fn numbers_size(kind: Kind, count: usize) -> u64
    requires { count < plain.list_limit }
    ensures number { 0 < plain.width_in plain.number_widths (kind_number kind) → (n : ℕ) → count ≡ 1 → result ≡ length (canon.zero_padded (octets.le_bytes (plain.width_in plain.number_widths (kind_number kind)) n)) }
    ensures numbers { 0 < plain.width_in plain.numbers_widths (kind_number kind) → (list : List ℕ) → length list ≡ count → result ≡ length (flat_map (λ n. canon.zero_padded (octets.le_bytes (plain.width_in plain.numbers_widths (kind_number kind)) n)) list) }
    ensures few { result ≤ 8 * count }
{
    if is_wide(kind) {
        8 * count as u64
    } else {
        4 * count as u64
    }
}

/// The bytes of a value.
fn value_size<B: Blob>(value: &Value<B>) -> u64
    requires { plain.IsValue (value_of B.bytes value.now) }
    ensures { result ≡ capped (length (canon.value_bytes (value_of B.bytes value.now))) }
{
    match value {
        Value::Number { kind, .. } => numbers_size(*kind, 1),
        Value::Guid(_) => 16,
        Value::Bytes { kind, bytes } => 4 + text_size(bytes.len(), kind.null_size()),
        Value::Numbers { kind, list } => 4 + numbers_size(*kind, list.len()),
        Value::Guids(list) => 4 + 16 * list.len() as u64,
        Value::Parts { kind, list } => texts_size(kind.part_null_size(), list).saturating_add(4),
    }
}

/// The bytes of a key: the tag, and a name behind it.
fn key_size(key: &Key) -> u64
    requires { keys.IsKey (key_of key.now) }
    ensures { (names : List keys.Name) (kind : ℕ) → result ≡ length (canon.key_bytes names (key_of key.now) kind) }
{
    match key {
        Key::Id(_) => 4,
        Key::Named(name) => 4 + name_size(name),
    }
}

/// The bytes of a name.
fn name_size(name: &Name) -> u64
    requires { keys.IsName (name_of name.now) }
    ensures size { result ≡ length (canon.name_bytes (name_of name.now)) }
    ensures few { result ≤ 1000 }
{
    match name {
        Name::Number { .. } => 24,
        Name::Text(text) => {
            let size = 2 * (text.units.len() as u64 + 1);
            24 + size + pad4(size)
        }
    }
}

/// The bytes of a property.
fn prop_size<B: Blob>(prop: &Prop<B>) -> u64
    ensures { (names : List keys.Name) → result ≡ capped (length (canon.prop_bytes names prop.now)) }
{
    key_size(&prop.key).saturating_add(value_size(&prop.value))
}

/// The bytes of an Object whose value has so many bytes.
fn object_size(len: u64) -> u64
    ensures { (x : List ℕ) → capped (length x) ≡ len → result ≡ capped (length (canon.object_bytes x)) }
{
    len.saturating_add(pad4(len)).saturating_add(12)
}

/// The bytes before the properties of a list: the count, and the Object where there is one.
fn frame_size(object: Option<u64>) -> u64
    ensures { (content : Option (List ℕ)) → option_map (λ (x : List ℕ). capped (length x)) content ≡ object → result ≡ capped (4 + object_length content) }
{
    match object {
        Some(len) => object_size(len).saturating_add(4),
        None => 4,
    }
}

/// The bytes of a list as it is written; `object` is the length of the value of an attachment's Object, where there is
/// one. A length that is above the greatest `u64` stays there. [MS-OXTNEF 2.1.3.4]
pub fn list_size<B: Blob>(props: &Props<B>, object: Option<u64>) -> u64
    ensures { (names : List keys.Name) (content : Option (List ℕ)) → option_map (λ (x : List ℕ). capped (length x)) content ≡ object → result ≡ capped (length (canon.list_bytes names props.now content)) }
{
    let mut size = frame_size(object);
    for k in 0..props.len() {
        size = size.saturating_add(prop_size(props.get(k)));
    }
    size
}
