//! Names as they are written.
ghost use Rattle.std.specs.Prelude.{◌≤◌, ◌+◌, vec_len, All};

use carrier_io::NoMemory;
use std::alloc::Global;

/// Where a name stands among units, and how many it has.
#[derive(Clone, Copy)]
pub struct Span {
    pub start: usize,
    pub len: usize,
}

/// Some names, one after another.
#[derive(Drop)]
pub struct Names {
    pub units: Vec<u16>,
    pub spans: Vec<Span>,
    ghost inside: { All (λ s. s.start + s.len ≤ vec_len units) spans.items },
}

impl Names {
    ghost use Rattle.std.specs.Prelude.{◌≡◌, ◌<◌, ◌++◌, ◌∷◌, [], length, OnOk, get_or};
    ghost use Rattle.cfb_directory.specs.Spelled.{names_in};

    /// No name.
    pub fn new(alloc: Global) -> Names
        ensures { names_in result ≡ [] }
    {
        Names {
            units: Vec::new(alloc),
            spans: Vec::new(alloc),
        }
    }

    /// Appends a name.
    pub fn push(&mut self, name: &[u16]) -> Result<(), NoMemory>
        ensures { OnOk result (names_in self.new ≡ names_in self.old ++ name.now ∷ []) }
    {
        let start = self.units.len();
        self.units.extend_from_slice(name)?;
        self.spans.push(Span {
            start,
            len: name.len(),
        })?;
        Ok(())
    }

    /// The name of this index.
    pub fn get(&self, k: usize) -> &[u16]
        requires { k < length (names_in self.now) }
        ensures { result.now ≡ get_or (names_in self.now) k [] }
    {
        let span = self.spans[k];
        &self.units[span.start..span.start + span.len]
    }
    /// How many names there are.
    pub fn len(&self) -> usize
        ensures { result ≡ length (names_in self.now) }
    {
        self.spans.len()
    }
}
