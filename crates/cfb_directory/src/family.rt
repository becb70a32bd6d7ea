//! The children of one entry.
ghost use Rattle.std.specs.Prelude.{◌≡◌, ◌<◌, ◌++◌, ◌∷◌, ℕ, List, [], None, length, map, get_or, OnOk, All};
ghost use Rattle.carrier_model.specs.Files.{family_names};
ghost use Rattle.carrier_io.specs.Reads.{Gives};
ghost use Rattle.cfb_sectors.specs.States.{entries};
ghost use Rattle.cfb_directory.specs.Families.{kids_of, index_of, names_of};
ghost use Rattle.cfb_directory.specs.Named.{key_of, first_named, name_at};
ghost use Rattle.cfb_directory.specs.Walks.{directory_of};

use crate::named::Named;
use crate::siblings::name_siblings;
use carrier_io::{NoMemory, Stop};
use cfb_sectors::Sectors;
use std::alloc::Global;

/// Some children, by number in sibling order and by name.
#[derive(Drop)]
pub struct Kin {
    pub children: Vec<u32>,
    pub named: Named,
}

/// The children of an entry, which take no room where there are none. A stream has none.
#[derive(Drop)]
pub struct Family {
    pub kin: Option<Box<Kin>>,
}

impl Family {
    /// No child.
    pub fn new() -> Family
        ensures kids { kids_of result ≡ [] }
        ensures index { (q : List ℕ) → index_of result q ≡ None }
        ensures names { names_of result ≡ [] }
    {
        Family { kin: None }
    }

    /// The children's numbers, in sibling order.
    pub fn children(&self) -> &[u32]
        ensures { result.now ≡ kids_of self.now }
    {
        match &self.kin {
            None => &[],
            Some(kin) => &kin.children,
        }
    }

    /// The child of this name, whose ASCII letters are in lower case.
    pub fn named(&self, units: &[u16]) -> Option<u32>
        ensures { result ≡ index_of self.now units.now }
    {
        match &self.kin {
            None => None,
            Some(kin) => kin.named.child(&kin.children, units),
        }
    }

    /// The name of a child.
    pub fn name(&self, k: usize) -> &[u16]
        requires { k < length (names_of self.now) }
        ensures { result.now ≡ get_or (names_of self.now) k [] }
    {
        match &self.kin {
            None => &[],
            Some(kin) => kin.named.names.get(k),
        }
    }

    /// Appends a child to those without names.
    pub fn push(&mut self, alloc: Global, id: u32) -> Result<(), NoMemory>
        requires { names_of self.old ≡ [] }
        ensures kids { OnOk result (kids_of self.new ≡ kids_of self.old ++ id ∷ []) }
        ensures index { OnOk result ((q : List ℕ) → index_of self.new q ≡ index_of self.old q) }
        ensures names { OnOk result (names_of self.new ≡ names_of self.old) }
    {
        if let Some(kin) = &mut self.kin {
            kin.children.push(id)?;
            return Ok(());
        }
        let mut children = Vec::new(alloc);
        children.push(id)?;
        self.kin = Some(Box::new(
            alloc,
            Kin {
                children,
                named: Named::new(alloc),
            },
        )?);
        Ok(())
    }

    /// Indexes the children by name. DoubleName at the first entry whose name an earlier one has.
    #[tactic(auto, unfolding(carrier_model::specs::Files::family_names))]
    pub fn index(&mut self, alloc: Global, sectors: &Sectors<'_>) -> Result<(), Stop>
        requires { All (λ n. n < entries sectors.now) (kids_of self.old) }
        ensures answer { Gives (λ _. tt) result (family_names (directory_of sectors.now) (kids_of self.old) []) }
        ensures children { kids_of self.new ≡ kids_of self.old }
        ensures named { OnOk result ((q : List ℕ) → index_of self.new q ≡ first_named (key_of (directory_of sectors.now)) q (kids_of self.old)) }
        ensures spelled { OnOk result (names_of self.new ≡ map (name_at (directory_of sectors.now)) (kids_of self.old)) }
    {
        if let Some(kin) = &mut self.kin {
            kin.named = name_siblings(alloc, sectors, &kin.children)?;
        }
        Ok(())
    }
}
