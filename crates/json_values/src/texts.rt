//! The value of a JSON text. [RFC 8259]
ghost use Rattle.std.specs.Prelude.{◌≡◌, IfOk, IsUtf8, None, Some, Err};
ghost use Rattle.serde_json.specs.Read.{read};
ghost use Rattle.json_values.specs.View.{view};

use crate::reading::read_value;
use crate::value::Value;
use json::{Invalid, Reader, Scratch};
use std::alloc::{AllocError, Global};

/// How deep arrays and objects may nest.
const MOST_LEVELS: usize = 127;

/// Why a text was not read.
#[derive(Clone, Copy, Debug, PartialEq, Eq)]
pub enum TextEnd {
    /// It is no JSON, nests too deep, or has a number out of range.
    NotJson,
    /// Memory was refused.
    NoMemory,
}

impl From<Invalid> for TextEnd {
    ghost use Rattle.json_values.specs.declared.texts.TextEnd.TheVariants.{NotJson};

    ghost from_gives = { λ _ e. e ≡ NotJson };

    fn from(_: Invalid) -> TextEnd {
        TextEnd::NotJson
    }
}

impl From<AllocError> for TextEnd {
    ghost use Rattle.json_values.specs.declared.texts.TextEnd.TheVariants.{NoMemory};

    ghost from_gives = { λ _ e. e ≡ NoMemory };

    fn from(_: AllocError) -> TextEnd {
        TextEnd::NoMemory
    }
}

fn read_text<'a>(
    alloc: Global,
    text: &'a str,
    scratch: &'a mut Scratch,
) -> Result<Value<'a>, TextEnd>
    ensures ok { IfOk result (λ v. read text.now ≡ Some (view v)) }
    ensures none { result ≡ Err TextEnd.NotJson → read text.now ≡ None }
{
    let mut reader = Reader::new(text, scratch)?;
    let value = read_value(alloc, &mut reader, MOST_LEVELS)?;
    if reader.next().is_some() {
        return Err(TextEnd::NotJson);
    }
    Ok(value)
}

/// The value of a JSON text, which keeps its texts in the text or, where they have escapes, in the scratch. NotJson
/// says that the bytes are no UTF-8 or no JSON, nest too deep, or have a number past the greatest float; NoMemory that
/// memory ran out.
pub fn parse<'a>(
    alloc: Global,
    bytes: &'a [u8],
    scratch: &'a mut Scratch,
) -> Result<Value<'a>, TextEnd>
    ensures ok { IfOk result (λ v. IsUtf8 bytes.now × (read bytes.now ≡ Some (view v))) }
    ensures none { result ≡ Err TextEnd.NotJson → IsUtf8 bytes.now → read bytes.now ≡ None }
{
    match simdutf8::compat::from_utf8(bytes) {
        Ok(text) => read_text(alloc, text, scratch),
        Err(_) => Err(TextEnd::NotJson),
    }
}
