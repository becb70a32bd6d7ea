//! What a reader passed over.
ghost use Rattle.std.specs.Prelude.{◌≡◌, ◌<◌, [], ◌∷◌, ◌++◌, length, OnOk, OnErr, slice_get, Some};
ghost use Rattle.carrier_io.specs.Lists.{passed_of};

use crate::failures::NoMemory;
use std::alloc::Global;
use std::marker::Model;

/// An attribute or a property that no message has a place for.
#[derive(Clone, Copy, Debug, PartialEq, Eq)]
pub struct Passed {
    /// Whether it is an attribute; else it is a property.
    pub attribute: bool,
    /// The attribute's id, or the property's tag.
    pub what: u32,
    /// Where it stands, in bytes from the first of the input.
    pub offset: u64,
}

/// What was passed over, in reading order.
#[derive(Debug, Drop)]
pub struct PassedList {
    list: Vec<Passed>,
}

impl Model for PassedList {
    ghost use Rattle.std.specs.Prelude.{ℕ, Bool, List, map};
    ghost use Rattle.carrier_io.specs.Lists.{passed_of};

    ghost Value = { List (Bool × ℕ × ℕ) };

    ghost view = { λ s. map passed_of s.list.items };
}

impl PassedList {
    /// An empty list.
    pub fn new(alloc: Global) -> PassedList
        ensures { result ≡ [] }
    {
        PassedList {
            list: Vec::new(alloc),
        }
    }

    /// Puts what was passed over behind the rest. The list is unchanged where memory is refused.
    pub fn push(&mut self, item: Passed) -> Result<(), NoMemory>
        ensures ok { OnOk result (self.new ≡ self.old ++ passed_of item ∷ []) }
        ensures err { OnErr result (self.new ≡ self.old) }
    {
        self.list.push(item)?;
        Ok(())
    }

    /// How much was passed over.
    pub fn len(&self) -> usize
        ensures { result ≡ length self.now }
    {
        self.list.len()
    }

    /// What was passed over at a place, counted from 0.
    pub fn get(&self, k: usize) -> &Passed
        requires { k < length self.now }
        ensures { slice_get self.now k ≡ Some (passed_of result.now) }
    {
        &self.list[k]
    }
}
