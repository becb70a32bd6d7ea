//! JSON values. [RFC 8259]
ghost use Rattle.std.specs.Prelude.{◌≡◌, IfOk, IfErr};
ghost use Rattle.json_values.specs.Values.{in_box};

use crate::texts::TextEnd;
use std::alloc::Global;

/// A list in a box, which takes the room of a pointer; no box where there is nothing in it.
pub type Boxed<T> = Option<Box<Vec<T>>>;

/// A JSON value. Its texts are borrowed, and numbers stay texts.
#[derive(Drop)]
pub enum Value<'a> {
    /// null.
    Null,
    /// true or false.
    Bool(bool),
    /// A number, as it stands in the text.
    Number(&'a str),
    /// A string without its escapes.
    String(&'a str),
    /// The elements of an array, in their order.
    Array(Boxed<Value<'a>>),
    /// The members of an object, in their order.
    Object(Boxed<(&'a str, Value<'a>)>),
}

/// A list in a box of its own. NoMemory says that memory ran out.
pub(crate) fn boxed<T: Drop>(alloc: Global, list: Vec<T>) -> Result<Boxed<T>, TextEnd>
    ensures ok { IfOk result (λ b. in_box b ≡ list.items) }
    ensures memory { IfErr result (λ e. e ≡ TextEnd.NoMemory) }
{
    if list.is_empty() {
        return Ok(None);
    }
    match Box::new(alloc, list) {
        Ok(list) => Ok(Some(list)),
        Err(_) => Err(TextEnd::NoMemory),
    }
}

/// What is in a list.
pub fn unboxed<T>(list: &Boxed<T>) -> &[T]
    ensures { result.now ≡ in_box list.now }
{
    match list {
        Some(list) => list.as_slice(),
        None => &[],
    }
}
