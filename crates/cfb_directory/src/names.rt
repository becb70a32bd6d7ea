//! Names of entries, and the children of a storage by them.
ghost use Rattle.std.specs.Prelude.{◌≡◌, ◌<◌, ℕ, List, [], None, Some, IfOk, IsSome, All, cond, nat_eq};
ghost use Rattle.std.specs.Char.{to_ascii_lowercase};
ghost use Rattle.std.specs.Cmp.Lexicographic.{pointwise};
ghost use Rattle.carrier_model.specs.Files.{name_of, folded, family_names};
ghost use Rattle.carrier_io.specs.Reads.{Gives};
ghost use Rattle.cfb_sectors.specs.States.{entries};
ghost use Rattle.cfb_sectors.specs.Views.{entry as entry_seen};
ghost use Rattle.cfb_directory.specs.Named.{found, key_of, first_named};
ghost use Rattle.cfb_directory.specs.Walks.{directory_of};

use carrier_io::{Fault, NoMemory, Reason, Stop};
use cfb_sectors::{Entry, Sectors};
use std::alloc::{AllocError, Global};
use std::collections::BTreeMap;

/// The children of a storage, by their names with ASCII letters in lower case.
#[derive(Drop)]
pub struct NameIndex {
    ids: BTreeMap<Vec<u16>, u32>,
}

/// A unit, in lower case where it is an ASCII letter.
pub fn lower(unit: u16) -> u16
    ensures { result ≡ to_ascii_lowercase unit }
{
    if unit >= 65 && unit <= 90 {
        unit + 32
    } else {
        unit
    }
}

/// The units with ASCII letters in lower case.
fn lowered(alloc: Global, units: &[u16]) -> Result<Vec<u16>, AllocError>
    ensures { IfOk result (λ v. v.items ≡ folded units.now) }
{
    units.iter().map(|unit| lower(*unit)).collect(alloc)
}

/// The units of an entry's name, without its null.
pub fn name(entry: &Entry) -> &[u16]
    ensures { result.now ≡ name_of (entry_seen entry.now) }
{
    let len = usize::from(entry.name_bytes / 2).saturating_sub(1);
    &entry.units[..len.min(32)]
}

impl NameIndex {
    /// No child.
    pub fn new(alloc: Global) -> NameIndex
        ensures { (q : List ℕ) → found result q ≡ None }
    {
        NameIndex {
            ids: BTreeMap::new(alloc),
        }
    }

    /// Puts a child there, unless one of that name is there. Whether it was put there.
    fn insert(&mut self, alloc: Global, units: &[u16], id: u32) -> Result<bool, NoMemory>
        ensures { IfOk result (λ new. cond new ((found self.old (folded units.now) ≡ None) × ((q : List ℕ) → found self.new q ≡ cond (pointwise nat_eq (folded units.now) q) (Some id) (found self.old q))) (IsSome (found self.old (folded units.now)))) }
    {
        let key = lowered(alloc, units)?;
        match self.ids.insert(key, id)? {
            None => Ok(true),
            Some(_) => Ok(false),
        }
    }

    /// The child of this name, whose ASCII letters are in lower case.
    pub fn get(&self, units: &[u16]) -> Option<u32>
        ensures { result ≡ found self.now units.now }
    {
        self.ids.get(units).copied()
    }
}

/// The children of a storage by name, for their entries' numbers in sibling order. DoubleName at the first entry whose name an
/// earlier one has, up to the case of ASCII letters.
pub fn index_children(
    alloc: Global,
    sectors: &Sectors<'_>,
    family: &[u32],
) -> Result<NameIndex, Stop>
    requires { All (λ n. n < entries sectors.now) family.now }
    ensures answer { Gives (λ _. tt) result (family_names (directory_of sectors.now) family.now []) }
    ensures named { IfOk result (λ index. (q : List ℕ) → found index q ≡ first_named (key_of (directory_of sectors.now)) q family.now) }
{
    let mut index = NameIndex::new(alloc);
    for id in family {
        let entry = sectors.entry(*id);
        if !index.insert(alloc, name(&entry), *id)? {
            return Err(Stop::Fault(Fault {
                reason: Reason::DoubleName,
                offset: sectors.entry_offset(*id),
            }));
        }
    }
    Ok(index)
}
