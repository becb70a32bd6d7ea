//! Which sectors are taken.
ghost use Rattle.std.specs.Prelude.{◌≡◌, ◌<◌, List, Bool, false, true, length, get_or, set, replicate, IfOk};

use std::alloc::{AllocError, Global};
use std::marker::Model;

/// One mark for each sector of a table, or for each entry of a directory: whether a chain, a list or a walk has taken it.
#[derive(Drop)]
pub struct SectorMarks {
    bits: Vec<bool>,
}

impl Model for SectorMarks {
    ghost Value = { List Bool };

    ghost view = { λ m. m.bits.items };
}

impl SectorMarks {
    /// No sector is taken. AllocError says that memory ran out.
    pub fn new(alloc: Global, count: usize) -> Result<SectorMarks, AllocError>
        ensures { IfOk result (λ m. m ≡ replicate count false) }
    {
        Ok(SectorMarks {
            bits: vec![in alloc; false; count]?,
        })
    }

    /// How many marks there are.
    pub fn len(&self) -> usize
        ensures { result ≡ length self.now }
    {
        self.bits.len()
    }

    /// Whether a sector is taken.
    pub fn has(&self, sector: u32) -> bool
        requires { sector < length self.now }
        ensures { result ≡ get_or self.now sector false }
    {
        self.bits[sector as usize]
    }

    /// Takes a sector.
    pub fn mark(&mut self, sector: u32)
        requires { sector < length self.old }
        ensures { self.new ≡ set self.old sector true }
    {
        self.bits[sector as usize] = true;
    }
}
