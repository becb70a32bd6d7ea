//! Attributes as they lie in a stream.
use crate::reading::attributes_of;
use carrier_io::{Fault, NoMemory, Reason, Stop, u32_at};
use std::alloc::Global;
use std::marker::Model;

/// An attribute of a TNEF stream (MS-OXTNEF).
#[derive(Clone, Copy, Debug)]
pub struct Attribute<'a> {
    /// 1 for the message, 2 for an attachment; it is not compared with the id.
    pub level: u8,
    pub id: u32,
    /// Where the level byte stands, in bytes from the first of the input.
    pub offset: u64,
    /// The value, which begins 9 bytes behind the offset.
    pub bytes: &'a [u8],
}

/// The attributes of a stream, in order.
#[derive(Drop)]
pub struct Attributes<'a> {
    list: Vec<Attribute<'a>>,
}

impl<'a> Model for Attributes<'a> {
    ghost use Rattle.std.specs.Prelude.{List};
    ghost use Rattle.tnef_model.specs.Attributes.{Attr};
    ghost use Rattle.tnef_attributes.specs.Views.{views};

    ghost Value = { List Attr };

    ghost view = { λ s. views s.list.items };
}

/// The first four bytes of a stream, as a number.
const SIGNATURE: u32 = 0x223e_9f78;

impl<'a> Attributes<'a> {
    ghost use Rattle.std.specs.Prelude.{◌≡◌, ◌+◌, ◌<◌, ◌≤◌, [], ◌∷◌, ◌++◌, length, slice_get, Some, OnOk, OnErr};
    ghost use Rattle.tnef_model.specs.Attributes.{Attrs, AttrsFault};
    ghost use Rattle.carrier_io.specs.Reads.{Reads};
    ghost use Rattle.tnef_attributes.specs.Views.{view, views};

    /// The attributes of the stream, whose first byte stands at an offset of the input; or the first fault:
    /// BadSignature, Truncated, BadLevel or BadSum.
    pub fn read(alloc: Global, bytes: &'a [u8], at: u64) -> Result<Attributes<'a>, Stop>
        requires { at + length bytes.now ≤ 268435456 }
        ensures { Reads (λ a. a) result (Attrs at bytes.now) (AttrsFault at bytes.now) }
    {
        if bytes.len() < 4 || u32_at(bytes, 0) != SIGNATURE {
            return Err(Stop::Fault(Fault {
                reason: Reason::BadSignature,
                offset: at,
            }));
        }
        if bytes.len() < 6 {
            return Err(Stop::Fault(Fault {
                reason: Reason::Truncated,
                offset: at + 4,
            }));
        }
        let (_, body) = bytes.split_at(6);
        attributes_of(alloc, body, at + 6)
    }

    /// No attributes.
    pub(crate) fn new(alloc: Global) -> Attributes<'a>
        ensures { result ≡ [] }
    {
        Attributes {
            list: Vec::new(alloc),
        }
    }

    /// Puts an attribute behind the others. The list is unchanged where memory is refused.
    pub(crate) fn push(&mut self, attribute: Attribute<'a>) -> Result<(), NoMemory>
        ensures ok { OnOk result (self.new ≡ self.old ++ view attribute.entry ∷ []) }
        ensures err { OnErr result (self.new ≡ self.old) }
    {
        self.list.push(attribute)?;
        Ok(())
    }

    /// How many attributes there are.
    pub fn len(&self) -> usize
        ensures { result ≡ length self.now }
    {
        self.list.len()
    }

    /// The attribute at a place, counted from 0.
    pub fn get(&self, k: usize) -> &Attribute<'a>
        requires { k < length self.now }
        ensures { slice_get self.now k ≡ Some (view result.now) }
    {
        &self.list[k]
    }

    /// The attributes as they lie in memory.
    pub fn as_slice(&self) -> &[Attribute<'a>]
        ensures { views result.now ≡ self.now }
    {
        self.list.as_slice()
    }
}
