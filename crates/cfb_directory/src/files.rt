//! The files of a compound file.
ghost use Rattle.std.specs.Prelude.{◌≡◌, ◌<◌, ℕ, List, true, vec_len, map, All};
ghost use Rattle.cfb_sectors.specs.States.{entries};
ghost use Rattle.cfb_directory.specs.Families.{family_at, index_at, names_at};
ghost use Rattle.cfb_directory.specs.Named.{first_named, are_apart, key_of, name_at};
ghost use Rattle.cfb_directory.specs.Opened.{IsOpened};
ghost use Rattle.cfb_directory.specs.Shapes.{deepest, shape, table_of};
ghost use Rattle.cfb_directory.specs.Trees.{ends};
ghost use Rattle.cfb_directory.specs.Walks.{directory_of};

use crate::family::Family;
use crate::streams::Streams;
use cfb_sectors::Sectors;

/// The storages and streams of a compound file [MS-CFB 2.6]. An entry of its directory goes by its number, and so does its
/// family. What an entry says is read in the directory itself.
#[derive(Drop)]
pub struct Files<'a> {
    pub(crate) sectors: Sectors<'a>,
    pub(crate) streams: Streams<'a>,
    pub(crate) families: Vec<Family>,
    ghost count: { vec_len families ≡ entries sectors },
    ghost numbers: { vec_len streams.numbers ≡ entries sectors },
    ghost some: { 0 < vec_len families },
    ghost inside: { (p : ℕ) → All (λ k. k < vec_len families) (family_at families.items p) },
    ghost named: { (p : ℕ) (q : List ℕ) → p < vec_len families → index_at families.items p q ≡ first_named (key_of (directory_of sectors)) q (family_at families.items p) },
    ghost spelled: { (p : ℕ) → p < vec_len families → names_at families.items p ≡ map (name_at (directory_of sectors)) (family_at families.items p) },
    ghost apart: { (p : ℕ) → are_apart (key_of (directory_of sectors)) (family_at families.items p) ≡ true },
    ghost deep: { (id : ℕ) → ends (family_at families.items) deepest id ≡ true },
    ghost opened: { ∥ IsOpened (shape (table_of sectors streams.numbers.items streams.views.items families.items)) ∥₁ },
}
