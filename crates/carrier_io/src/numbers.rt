//! A list of numbers.
ghost use Rattle.std.specs.Prelude.{◌≡◌, ◌<◌, ℕ, [], ◌∷◌, ◌++◌, length, IfOk, OnOk, OnErr, slice_get, Some};

use crate::failures::NoMemory;
use std::alloc::Global;
use std::marker::Model;

/// A list of numbers. Where there is one, it takes no memory of its own.
#[derive(Debug, Drop)]
pub struct Numbers {
    alloc: Global,
    held: Few,
}

/// The numbers of a list.
#[derive(Debug, Drop)]
enum Few {
    None,
    One(u64),
    Many(Box<Vec<u64>>),
}

impl Model for Numbers {
    ghost use Rattle.std.specs.Prelude.{ℕ, List};
    ghost use Rattle.carrier_io.specs.Numbers.{numbers_in};

    ghost Value = { List ℕ };

    ghost view = { λ s. numbers_in s.held };
}

impl Numbers {
    /// An empty list.
    pub fn new(alloc: Global) -> Numbers
        ensures { result ≡ [] }
    {
        Numbers {
            alloc,
            held: Few::None,
        }
    }

    /// An empty list with room for so many numbers. NoMemory says that memory ran out.
    pub fn with_capacity(alloc: Global, capacity: usize) -> Result<Numbers, NoMemory>
        ensures { IfOk result (λ list. list ≡ []) }
    {
        if capacity < 2 {
            return Ok(Numbers::new(alloc));
        }
        Ok(Numbers {
            alloc,
            held: Few::Many(Box::new(alloc, Vec::with_capacity(alloc, capacity)?)?),
        })
    }

    /// Puts a number behind the others. The list is unchanged where memory is refused.
    pub fn push(&mut self, item: u64) -> Result<(), NoMemory>
        ensures ok { OnOk result (self.new ≡ self.old ++ item ∷ []) }
        ensures err { OnErr result (self.new ≡ self.old) }
    {
        match &mut self.held {
            Few::None => self.held = Few::One(item),
            Few::One(first) => {
                let both = [*first, item];
                let list = Vec::from_array(self.alloc, both)?;
                self.held = Few::Many(Box::new(self.alloc, list)?);
            }
            Few::Many(list) => list.push(item)?,
        }
        Ok(())
    }

    /// How many numbers it has.
    pub fn len(&self) -> usize
        ensures { result ≡ length self.now }
    {
        match &self.held {
            Few::None => 0,
            Few::One(_) => 1,
            Few::Many(list) => list.len(),
        }
    }

    /// The number at a place, counted from 0.
    pub fn get(&self, k: usize) -> &u64
        requires { k < length self.now }
        ensures { slice_get self.now k ≡ Some result.now }
    {
        match &self.held {
            Few::None => unreachable!(),
            Few::One(item) => item,
            Few::Many(list) => &list[k],
        }
    }
}
