//! The names of siblings, read.
ghost use Rattle.std.specs.Prelude.{◌≡◌, ◌<◌, ℕ, List, [], map, IfOk, All};
ghost use Rattle.carrier_model.specs.Files.{family_names};
ghost use Rattle.carrier_io.specs.Reads.{Gives};
ghost use Rattle.cfb_sectors.specs.States.{entries};
ghost use Rattle.cfb_directory.specs.ByName.{child_found};
ghost use Rattle.cfb_directory.specs.Named.{key_of, first_named, name_at};
ghost use Rattle.cfb_directory.specs.Spelled.{names_in};
ghost use Rattle.cfb_directory.specs.Walks.{directory_of};

use crate::named::Named;
use crate::names::{index_children, name};
use crate::rising::rise;
use crate::spelled::Names;
use carrier_io::{NoMemory, Stop};
use cfb_sectors::Sectors;
use std::alloc::Global;

/// The names of some entries.
fn spell(alloc: Global, sectors: &Sectors<'_>, family: &[u32]) -> Result<Names, NoMemory>
    requires { All (λ n. n < entries sectors.now) family.now }
    ensures { IfOk result (λ n. names_in n ≡ map (name_at (directory_of sectors.now)) family.now) }
{
    let mut names = Names::new(alloc);
    for id in family {
        names.push(name(&sectors.entry(*id)))?;
    }
    Ok(names)
}

/// The names of siblings, for their entries' numbers in sibling order. DoubleName at the first entry whose name an earlier one
/// has, up to the case of ASCII letters.
pub fn name_siblings(alloc: Global, sectors: &Sectors<'_>, family: &[u32]) -> Result<Named, Stop>
    requires { All (λ n. n < entries sectors.now) family.now }
    ensures answer { Gives (λ _. tt) result (family_names (directory_of sectors.now) family.now []) }
    ensures named { IfOk result (λ n. (q : List ℕ) → child_found n family.now q ≡ first_named (key_of (directory_of sectors.now)) q family.now) }
    ensures spelled { IfOk result (λ n. names_in n.names ≡ map (name_at (directory_of sectors.now)) family.now) }
{
    let names = spell(alloc, sectors, family)?;
    if rise(&names) {
        return Ok(Named { names, index: None });
    }
    let index = Some(index_children(alloc, sectors, family)?);
    Ok(Named { names, index })
}
