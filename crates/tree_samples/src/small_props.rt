//! The properties of samples.
ghost use Rattle.std.specs.Prelude.{◌≡◌, ◌<◌, length, IfOk};
ghost use Rattle.carrier_model.specs.SmallTrees.{wide, string_prop, integer32};
ghost use Rattle.text_model.specs.SampleTrees.{named_prop};
ghost use Rattle.text_model.specs.TreeTexts.{counted};

use carrier_io::NoMemory;
use prop_names::{Guid, Key, Name};
use prop_values::{Kind, Prop, Value};
use std::alloc::Global;

/// PSETID_Common [MS-OXPROPS 1.3.2].
const COMMON: Guid = Guid([
    0x08, 0x20, 0x06, 0x00, 0x00, 0x00, 0x00, 0x00, 0xc0, 0x00, 0x00, 0x00, 0x00, 0x00, 0x00, 0x46,
]);

/// The number of the first name.
const FIRST_NAME: u32 = 0x8500;

/// PidTagSubject [MS-OXPROPS].
const SUBJECT: u16 = 0x0037;

/// The UTF-16 units of ASCII characters, the low byte first.
fn wide_text(alloc: Global, text: &str) -> Result<Vec<u8>, NoMemory>
    ensures { IfOk result (λ r. r.items ≡ wide text.now) }
{
    let mut units = Vec::new(alloc);
    for c in text.as_bytes() {
        units.push(*c)?;
        units.push(0)?;
    }
    Ok(units)
}

/// A String of ASCII characters.
pub fn text_prop(alloc: Global, id: u16, text: &str) -> Result<Prop<Vec<u8>>, NoMemory>
    requires id { id < 0x8000 }
    requires short { length text.now < 0x1000 }
    ensures { IfOk result (λ p. p ≡ string_prop id text.now) }
{
    Ok(Prop {
        key: Key::Id(id),
        value: Value::Bytes {
            kind: Kind::String,
            bytes: wide_text(alloc, text)?,
        },
    })
}

/// An Integer32.
pub fn number_prop(id: u16, number: u32) -> Prop<Vec<u8>>
    requires { id < 0x8000 }
    ensures { result ≡ integer32 id number }
{
    Prop {
        key: Key::Id(id),
        value: Value::Number {
            kind: Kind::Integer32,
            bits: u64::from(number),
        },
    }
}

/// A named Integer32.
pub fn named_number(number: u32) -> Prop<Vec<u8>>
    requires { number < 0x1_0000 }
    ensures { result ≡ named_prop number }
{
    Prop {
        key: Key::Named(Name::Number {
            set: COMMON,
            number: FIRST_NAME + number,
        }),
        value: Value::Number {
            kind: Kind::Integer32,
            bits: u64::from(number),
        },
    }
}

/// A subject of a word and a number.
pub fn subject(alloc: Global, word: &str, number: u32) -> Result<Prop<Vec<u8>>, NoMemory>
    requires { length word.now < 0x100 }
    ensures { IfOk result (λ p. p ≡ string_prop 0x0037 (counted word.now number)) }
{
    let text = format!(in alloc; "{word} {number}")?;
    text_prop(alloc, SUBJECT, &text)
}
