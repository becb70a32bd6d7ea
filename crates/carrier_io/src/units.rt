//! A list of UTF-16 units.
ghost use Rattle.std.specs.Prelude.{◌≡◌, ◌<◌, ℕ, [], ◌∷◌, ◌++◌, length, IfOk, OnOk, OnErr, slice_get, Some};

use crate::failures::NoMemory;
use std::alloc::Global;
use std::marker::Model;

/// A list of UTF-16 units.
#[derive(Debug, Drop)]
pub struct Units {
    list: Vec<u16>,
}

impl Model for Units {
    ghost use Rattle.std.specs.Prelude.{ℕ, List};

    ghost Value = { List ℕ };

    ghost view = { λ s. s.list.items };
}

impl Units {
    /// An empty list.
    pub fn new(alloc: Global) -> Units
        ensures { result ≡ [] }
    {
        Units {
            list: Vec::new(alloc),
        }
    }

    /// The list of these units.
    pub fn from_vec(list: Vec<u16>) -> Units
        ensures { result ≡ list.items }
    {
        Units { list }
    }

    /// Puts a unit behind the others. The list is unchanged where memory is refused.
    pub fn push(&mut self, item: u16) -> Result<(), NoMemory>
        ensures ok { OnOk result (self.new ≡ self.old ++ item ∷ []) }
        ensures err { OnErr result (self.new ≡ self.old) }
    {
        self.list.push(item)?;
        Ok(())
    }

    /// How many units it has.
    pub fn len(&self) -> usize
        ensures { result ≡ length self.now }
    {
        self.list.len()
    }

    /// The unit at a place, counted from 0.
    pub fn get(&self, k: usize) -> &u16
        requires { k < length self.now }
        ensures { slice_get self.now k ≡ Some result.now }
    {
        &self.list[k]
    }

    /// The units as they lie in memory.
    pub fn as_slice(&self) -> &[u16]
        ensures { result.now ≡ self.now }
    {
        self.list.as_slice()
    }

    /// Equal units. NoMemory says that memory ran out.
    pub fn copy(&self, alloc: Global) -> Result<Units, NoMemory>
        ensures { IfOk result (λ r. r ≡ self.now) }
    {
        Ok(Units {
            list: self.list.as_slice().to_vec(alloc)?,
        })
    }
}
