//! The children of each entry.
ghost use Rattle.std.specs.Prelude.{◌≡◌, ◌<◌, ℕ, List, vec_len, map, cond, [], None, IfOk, OnOk, All};
ghost use Rattle.carrier_model.specs.Chains.{member};
ghost use Rattle.carrier_model.specs.Files.{names_of};
ghost use Rattle.carrier_io.specs.Reads.{Gives};
ghost use Rattle.cfb_sectors.specs.States.{entries};
ghost use Rattle.cfb_directory.specs.Families.{family_at, index_at, names_at, children_in};
ghost use Rattle.cfb_directory.specs.Named.{key_of, first_named, name_at};
ghost use Rattle.cfb_directory.specs.Walks.{directory_of, IsInside};

use crate::family::Family;
use crate::links::Member;
use carrier_io::{NoMemory, Stop};
use cfb_sectors::Sectors;
use std::alloc::Global;

/// So many entries without children.
fn no_families(alloc: Global, count: u32) -> Result<Vec<Family>, NoMemory>
    ensures count { IfOk result (λ v. vec_len v ≡ count) }
    ensures children { IfOk result (λ v. (p : ℕ) → family_at v.items p ≡ []) }
    ensures names { IfOk result (λ v. (p : ℕ) (q : List ℕ) → p < count → index_at v.items p q ≡ None) }
    ensures spelled { IfOk result (λ v. (p : ℕ) → names_at v.items p ≡ []) }
{
    let mut families = Vec::new(alloc);
    for _i in 0..count {
        families.push(Family::new())?;
    }
    Ok(families)
}

/// The children of each of so many entries, in sibling order. None is indexed by name yet.
pub fn group_children(alloc: Global, count: u32, order: &[Member]) -> Result<Vec<Family>, NoMemory>
    requires { All (IsInside count) order.now }
    ensures count { IfOk result (λ v. vec_len v ≡ count) }
    ensures children { IfOk result (λ v. (p : ℕ) → family_at v.items p ≡ children_in p order.now) }
    ensures names { IfOk result (λ v. (p : ℕ) (q : List ℕ) → p < count → index_at v.items p q ≡ None) }
    ensures spelled { IfOk result (λ v. (p : ℕ) → names_at v.items p ≡ []) }
{
    let mut families = no_families(alloc, count)?;
    for child in order {
        families[child.parent as usize].push(alloc, child.id)?;
    }
    Ok(families)
}

/// Indexes the children of these entries by name, one after another. DoubleName at the first entry whose name an earlier
/// one of its storage has.
pub fn index_families(
    alloc: Global,
    sectors: &Sectors<'_>,
    visits: &[u32],
    families: &mut Vec<Family>,
) -> Result<(), Stop>
    requires count { vec_len families.old ≡ entries sectors.now }
    requires visits { All (λ n. n < entries sectors.now) visits.now }
    requires inside { (p : ℕ) → All (λ n. n < entries sectors.now) (family_at families.old.items p) }
    requires bare { (p : ℕ) (q : List ℕ) → p < entries sectors.now → index_at families.old.items p q ≡ None }
    requires unspelled { (p : ℕ) → names_at families.old.items p ≡ [] }
    ensures answer { Gives (λ _. tt) result (names_of (directory_of sectors.now) (map (family_at families.old.items) visits.now)) }
    ensures count { vec_len families.new ≡ vec_len families.old }
    ensures children { (p : ℕ) → family_at families.new.items p ≡ family_at families.old.items p }
    ensures named { OnOk result ((p : ℕ) (q : List ℕ) → p < entries sectors.now → index_at families.new.items p q ≡ first_named (key_of (directory_of sectors.now)) q (cond (member p visits.now) (family_at families.old.items p) [])) }
    ensures spelled { OnOk result ((p : ℕ) → p < entries sectors.now → names_at families.new.items p ≡ map (name_at (directory_of sectors.now)) (cond (member p visits.now) (family_at families.old.items p) [])) }
{
    for id in visits {
        families[*id as usize].index(alloc, sectors)?;
    }
    Ok(())
}
