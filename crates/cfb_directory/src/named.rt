//! Names of siblings, and the siblings by them.
ghost use Rattle.std.specs.Prelude.{◌≡◌, None, map};
ghost use Rattle.carrier_model.specs.Files.{folded};
ghost use Rattle.cfb_directory.specs.Rising.{Rise};
ghost use Rattle.cfb_directory.specs.Spelled.{names_in};

use crate::names::NameIndex;
use crate::rising::place_of;
use crate::spelled::Names;
use std::alloc::Global;

/// The names of siblings. Where they rise, as those of most well-formed files do, they are looked up where they stand; else
/// there is an index of them.
#[derive(Drop)]
pub struct Named {
    pub names: Names,
    pub index: Option<NameIndex>,
    ghost rising: { index ≡ None → Rise (map folded (names_in names)) },
}

impl Named {
    ghost use Rattle.std.specs.Prelude.{◌≡◌, []};
    ghost use Rattle.cfb_directory.specs.ByName.{child_found};

    /// No name.
    pub fn new(alloc: Global) -> Named
        ensures index { result.index ≡ None }
        ensures names { names_in result.names ≡ [] }
    {
        Named {
            names: Names::new(alloc),
            index: None,
        }
    }

    /// The one of some siblings that has this name, whose ASCII letters are in lower case.
    pub fn child(&self, siblings: &[u32], key: &[u16]) -> Option<u32>
        ensures { result ≡ child_found self.now siblings.now key.now }
    {
        match &self.index {
            Some(index) => index.get(key),
            None => siblings.get(place_of(&self.names, key)?).copied(),
        }
    }
}
