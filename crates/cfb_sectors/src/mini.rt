//! The mini FAT and the mini stream.
ghost use Rattle.std.specs.Prelude.{◌≡◌, ℕ, ◌+◌, ◌*◌, ◌≤◌, ◌<◌, ◌^◌, ◌++◌, List, true, length, IfOk, All, vec_len};
ghost use Rattle.carrier_model.specs.Chains.{chain_of};
ghost use Rattle.carrier_model.specs.Loads.{mini_of, chain_bound};
ghost use Rattle.carrier_model.specs.Marks.{Marks, unmarked};
ghost use Rattle.carrier_model.specs.Sectors.{sector_count, whole_count, table_words, word_offset};
ghost use Rattle.carrier_model.specs.Streams.{places_of, starts_of, lie_below};
ghost use Rattle.carrier_io.specs.Reads.{Gives};
ghost use Rattle.carrier_io.specs.Steps.{stepped};
ghost use Rattle.cfb_sectors.specs.Views.{table, mini_seen};

use crate::chains::{Limits, Start, take_chain};
use crate::fat::Fat;
use crate::fields::MINI_FAT;
use crate::marks::SectorMarks;
use crate::streams::{Mini, Wish, take_long_chain};
use crate::words::read_words;
use carrier_io::{Stop, Walk};
use std::alloc::Global;

/// The mini FAT from its first sector, which the header names. [MS-CFB 2.4]
fn take_mini_fat(
    alloc: Global,
    bytes: &[u8],
    fat: &Fat,
    first: u32,
    marks: &mut SectorMarks,
    walk: &mut Walk,
) -> Result<Fat, Stop>
    requires short { length bytes.now ≤ 268435456 }
    requires long { fat.now.size ≤ length bytes.now }
    requires marks { length marks.old ≡ sector_count fat.now.size bytes.now }
    ensures answer { (earlier : List ℕ) → Marks marks.old earlier → Gives (λ f. f.sectors.items) result (chain_of fat.now.words.items (word_offset fat.now.size fat.now.sectors.items) first 60 (chain_bound fat.now.size bytes.now fat.now.words.items) (whole_count fat.now.size bytes.now) 0 earlier) }
    ensures words { IfOk result (λ f. f.words.items ≡ table_words fat.now.size bytes.now f.sectors.items) }
    ensures size { IfOk result (λ f. f.size ≡ fat.now.size) }
    ensures marked { (earlier : List ℕ) → Marks marks.old earlier → IfOk result (λ f. Marks marks.new (earlier ++ f.sectors.items)) }
    ensures steps { IfOk result (λ f. walk.new ≡ stepped walk.old (vec_len f.sectors)) }
    ensures length { length marks.new ≡ length marks.old }
    ensures bounded { walk.new + unmarked marks.new ≤ walk.old + unmarked marks.old }
    ensures grows { walk.old ≤ walk.new }
{
    let size = fat.size as usize;
    let start = Start {
        sector: first,
        field: MINI_FAT,
    };
    let limits = Limits {
        bound: marks.len().min(fat.len() as usize) as u32,
        whole: ((bytes.len() - size) / size) as u32,
        need: 0,
    };
    let sectors = take_chain(alloc, fat, start, limits, marks, walk)?;
    let words = read_words(alloc, bytes, size, &sectors)?;
    Ok(Fat::new(fat.size, words, sectors))
}

/// The mini FAT and the mini stream that the root's entry at a place tells of; none where its size is 0.
#[tactic(auto, unfolding(carrier_model::specs::Loads::mini_of))]
pub fn load_mini(
    alloc: Global,
    bytes: &[u8],
    fat: &Fat,
    first: u32,
    wish: Wish,
    marks: &mut SectorMarks,
    walk: &mut Walk,
) -> Result<Mini, Stop>
    requires short { length bytes.now ≤ 268435456 }
    requires long { fat.now.size ≤ length bytes.now }
    requires place { wish.entry < 2 ^ 32 }
    requires marks { length marks.old ≡ sector_count fat.now.size bytes.now }
    ensures answer { (earlier : List ℕ) → Marks marks.old earlier → Gives mini_seen result (mini_of fat.now.size bytes.now (table fat.now) first wish.start wish.size wish.entry earlier) }
    ensures size { IfOk result (λ m. m.fat.size ≡ fat.now.size) }
    ensures marked { (earlier : List ℕ) → Marks marks.old earlier → IfOk result (λ m. Marks marks.new ((earlier ++ m.fat.sectors.items) ++ m.stream.items)) }
    ensures few { IfOk result (λ m. m.size < 268435456) }
    ensures enough { IfOk result (λ m. m.size ≤ fat.now.size * vec_len m.stream) }
    ensures within { IfOk result (λ m. lie_below (length bytes.now) (places_of fat.now.size (starts_of fat.now.size m.stream.items) m.size) ≡ true) }
    ensures below { IfOk result (λ m. All (λ n. n < 524288) m.stream.items) }
    ensures steps { IfOk result (λ m. walk.new ≡ stepped walk.old (vec_len m.fat.sectors + vec_len m.stream)) }
    ensures length { length marks.new ≡ length marks.old }
    ensures bounded { walk.new + unmarked marks.new ≤ walk.old + unmarked marks.old }
    ensures grows { walk.old ≤ walk.new }
{
    if wish.size == 0 {
        return Ok(Mini {
            fat: Fat::empty(alloc, fat.size),
            stream: Vec::new(alloc),
            size: 0,
        });
    }
    let mini_fat = take_mini_fat(alloc, bytes, fat, first, marks, walk)?;
    let stream = take_long_chain(alloc, bytes, fat, wish, marks, walk)?;
    Ok(Mini {
        fat: mini_fat,
        stream: stream.chain,
        size: wish.size as u32,
    })
}
