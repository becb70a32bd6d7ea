//! The chain of a stream, and where its pieces begin.
ghost use Rattle.std.specs.Prelude.{◌≡◌, ℕ, ◌+◌, ◌*◌, ◌≤◌, ◌<◌, ◌^◌, ◌++◌, List, true, length, map, IfOk, All, vec_len, IsTrue};
ghost use Rattle.carrier_model.specs.Loads.{long_chain_of, short_chain_of, mini_bound};
ghost use Rattle.carrier_model.specs.Marks.{Marks, unmarked};
ghost use Rattle.carrier_model.specs.Sectors.{is_size, sector_count};
ghost use Rattle.carrier_model.specs.Streams.{is_piece, place_in, places_of, starts_of, mini_offsets, lie_below};
ghost use Rattle.carrier_io.specs.Reads.{Gives};
ghost use Rattle.carrier_io.specs.Steps.{stepped};
ghost use Rattle.cfb_sectors.specs.Stays.{Stay};
ghost use Rattle.cfb_sectors.specs.Views.{table, mini_seen};

use crate::chains::{Limits, Start, take_chain};
use crate::fat::Fat;
use crate::fields::{SIZE, START};
use crate::header::fault;
use crate::marks::SectorMarks;
use carrier_io::{Reason, Stop, Walk};
use std::alloc::{AllocError, Global};

/// What an entry says of its stream, and the offset of the entry.
#[derive(Clone, Copy)]
pub struct Wish {
    pub start: u32,
    pub size: u64,
    pub entry: usize,
}

/// The sectors of a stream, and where each begins: in the file, or for mini sectors in the mini stream.
#[derive(Drop)]
pub struct Chained {
    pub chain: Vec<u32>,
    pub starts: Vec<u32>,
}

/// The mini FAT, the sectors of the mini stream, and how many bytes this has.
#[derive(Drop)]
pub struct Mini {
    pub fat: Fat,
    pub stream: Vec<u32>,
    pub size: u32,
}

/// Whether the first bytes of pieces lie below a limit.
fn lie_below(starts: &[u32], each: usize, size: usize, limit: usize) -> bool
    requires piece { IsTrue (is_piece each) }
    requires small { size < 2 ^ 32 }
    requires enough { size ≤ each * length starts.now }
    ensures { result ≡ lie_below limit (places_of each starts.now size) }
{
    let mut done = 0;
    for start in starts {
        let piece = each.min(size - done);
        if piece > 0 && *start as usize + piece > limit {
            return false;
        }
        done += piece;
    }
    true
}

/// Where sectors begin in the file.
fn sector_starts(alloc: Global, size: u32, chain: &[u32]) -> Result<Vec<u32>, AllocError>
    requires size { IsTrue (is_size size) }
    requires small { All (λ n. n < 524288) chain.now }
    ensures starts { IfOk result (λ v. v.items ≡ starts_of size chain.now) }
    ensures count { IfOk result (λ v. vec_len v ≡ length chain.now) }
{
    let mut starts = Vec::new(alloc);
    for sector in chain {
        starts.push((*sector + 1) * size)?;
    }
    Ok(starts)
}

/// Where mini sectors begin in the mini stream.
fn offsets_of(alloc: Global, chain: &[u32]) -> Result<Vec<u32>, AllocError>
    requires small { All (λ n. n < 67108864) chain.now }
    ensures starts { IfOk result (λ v. v.items ≡ mini_offsets chain.now) }
    ensures count { IfOk result (λ v. vec_len v ≡ length chain.now) }
{
    let mut starts = Vec::new(alloc);
    for sector in chain {
        starts.push(64 * *sector)?;
    }
    Ok(starts)
}

/// Where places of the mini stream lie in the file, for a mini stream of these sectors.
pub fn mini_starts(
    alloc: Global,
    size: u32,
    stream: &[u32],
    offsets: &[u32],
) -> Result<Vec<u32>, AllocError>
    requires size { IsTrue (is_size size) }
    requires small { All (λ n. n < 524288) stream.now }
    requires inside { All (λ o. o < size * length stream.now) offsets.now }
    ensures starts { IfOk result (λ v. v.items ≡ map (place_in size (starts_of size stream.now)) offsets.now) }
    ensures count { IfOk result (λ v. vec_len v ≡ length offsets.now) }
{
    let mut starts = Vec::new(alloc);
    for offset in offsets {
        let sector = stream[(*offset / size) as usize];
        starts.push((sector + 1) * size + *offset % size)?;
    }
    Ok(starts)
}

/// The chain in the table of a stream that lies within the file. Its sectors are marked.
#[tactic(auto, unfolding(carrier_model::specs::Loads::long_chain_of))]
pub fn take_long_chain(
    alloc: Global,
    bytes: &[u8],
    fat: &Fat,
    wish: Wish,
    marks: &mut SectorMarks,
    walk: &mut Walk,
) -> Result<Chained, Stop>
    requires short { length bytes.now ≤ 268435456 }
    requires long { fat.now.size ≤ length bytes.now }
    requires place { wish.entry < 2 ^ 32 }
    requires marks { length marks.old ≡ sector_count fat.now.size bytes.now }
    ensures answer { (earlier : List ℕ) → Marks marks.old earlier → Gives (λ c. c.chain.items) result (long_chain_of fat.now.size bytes.now (table fat.now) wish.start wish.size wish.entry earlier) }
    ensures marked { (earlier : List ℕ) → Marks marks.old earlier → IfOk result (λ c. Marks marks.new (earlier ++ c.chain.items)) }
    ensures starts { IfOk result (λ c. c.starts.items ≡ starts_of fat.now.size c.chain.items) }
    ensures count { IfOk result (λ c. vec_len c.starts ≡ vec_len c.chain) }
    ensures within { IfOk result (λ c. lie_below (length bytes.now) (places_of fat.now.size c.starts.items wish.size) ≡ true) }
    ensures enough { IfOk result (λ c. wish.size ≤ fat.now.size * vec_len c.chain) }
    ensures few { IfOk result (λ _. wish.size < 268435456) }
    ensures below { IfOk result (λ c. All (λ n. n < 524288) c.chain.items) }
    ensures steps { IfOk result (λ c. walk.new ≡ stepped walk.old (vec_len c.chain)) }
    ensures length { length marks.new ≡ length marks.old }
    ensures stay { Stay marks.old marks.new }
    ensures bounded { walk.new + unmarked marks.new ≤ walk.old + unmarked marks.old }
    ensures grows { walk.old ≤ walk.new }
{
    let bound = marks.len().min(fat.len() as usize) as u32;
    let start = Start {
        sector: wish.start,
        field: wish.entry + START,
    };
    let limits = Limits {
        bound,
        whole: bound,
        need: wish.size.div_ceil(u64::from(fat.size)) as usize,
    };
    let chain = take_chain(alloc, fat, start, limits, marks, walk)?;
    let starts = sector_starts(alloc, fat.size, &chain)?;
    if !lie_below(&starts, fat.size as usize, wish.size as usize, bytes.len()) {
        return Err(Stop::Fault(fault(Reason::FileTruncated, wish.entry + SIZE)));
    }
    Ok(Chained { chain, starts })
}

/// The chain in the mini FAT of a stream that lies within the mini stream. Its mini sectors are marked.
#[tactic(auto, unfolding(carrier_model::specs::Loads::short_chain_of))]
pub fn take_short_chain(
    alloc: Global,
    from: &Mini,
    wish: Wish,
    marks: &mut SectorMarks,
    walk: &mut Walk,
) -> Result<Chained, Stop>
    requires small { wish.size < 4096 }
    requires place { wish.entry < 2 ^ 32 }
    requires marks { length marks.old ≡ mini_bound (mini_seen from.now) }
    ensures answer { (earlier : List ℕ) → Marks marks.old earlier → Gives (λ c. c.chain.items) result (short_chain_of from.now.fat.size (mini_seen from.now) wish.start wish.size wish.entry earlier) }
    ensures marked { (earlier : List ℕ) → Marks marks.old earlier → IfOk result (λ c. Marks marks.new (earlier ++ c.chain.items)) }
    ensures starts { IfOk result (λ c. c.starts.items ≡ mini_offsets c.chain.items) }
    ensures count { IfOk result (λ c. vec_len c.starts ≡ vec_len c.chain) }
    ensures within { IfOk result (λ c. lie_below from.now.size (places_of 64 c.starts.items wish.size) ≡ true) }
    ensures enough { IfOk result (λ c. wish.size ≤ 64 * vec_len c.chain) }
    ensures below { IfOk result (λ c. All (λ n. n < mini_bound (mini_seen from.now)) c.chain.items) }
    ensures steps { IfOk result (λ c. walk.new ≡ stepped walk.old (vec_len c.chain)) }
    ensures length { length marks.new ≡ length marks.old }
    ensures stay { Stay marks.old marks.new }
    ensures bounded { walk.new + unmarked marks.new ≤ walk.old + unmarked marks.old }
    ensures grows { walk.old ≤ walk.new }
{
    let bound = marks.len() as u32;
    let start = Start {
        sector: wish.start,
        field: wish.entry + START,
    };
    let limits = Limits {
        bound,
        whole: bound,
        need: wish.size.div_ceil(64) as usize,
    };
    let chain = take_chain(alloc, &from.fat, start, limits, marks, walk)?;
    let starts = offsets_of(alloc, &chain)?;
    if !lie_below(&starts, 64, wish.size as usize, from.size as usize) {
        return Err(Stop::Fault(fault(Reason::FileTruncated, wish.entry + SIZE)));
    }
    Ok(Chained { chain, starts })
}
