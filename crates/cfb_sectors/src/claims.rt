//! Streams as views of the file, their sectors taken.
ghost use Rattle.std.specs.Prelude.{◌≡◌, ℕ, ◌+◌, ◌*◌, ◌≤◌, ◌<◌, ◌^◌, ◌++◌, List, true, length, IfOk, All, vec_len, Ok};
ghost use Rattle.std.specs.Int.{div_ceil};
ghost use Rattle.carrier_model.specs.Outcomes.{mapped};
ghost use Rattle.carrier_model.specs.Loads.{long_chain_of, short_chain_of, long_stream, short_stream, mini_bound};
ghost use Rattle.carrier_model.specs.Marks.{Marks, unmarked};
ghost use Rattle.carrier_model.specs.Sectors.{sector_count};
ghost use Rattle.carrier_model.specs.Streams.{places_of, starts_of, lie_below};
ghost use Rattle.carrier_io.specs.Reads.{Gives};
ghost use Rattle.carrier_io.specs.Steps.{stepped};
ghost use Rattle.cfb_sectors.specs.Seen.{stream, piece_count};
ghost use Rattle.cfb_sectors.specs.Stays.{Stay};
ghost use Rattle.cfb_sectors.specs.Views.{table, mini_seen};

use crate::fat::Fat;
use crate::marks::SectorMarks;
use crate::streams::{Mini, Wish, mini_starts, take_long_chain, take_short_chain};
use crate::view::StreamView;
use carrier_io::{Stop, Walk};
use std::alloc::Global;

/// The stream that an entry tells of, whose chain is in the FAT. [MS-CFB 2.3, 2.6.3]
pub fn view_long<'a>(
    alloc: Global,
    bytes: &'a [u8],
    fat: &Fat,
    wish: Wish,
    marks: &mut SectorMarks,
    walk: &mut Walk,
) -> Result<StreamView<'a>, Stop>
    requires short { length bytes.now ≤ 268435456 }
    requires long { fat.now.size ≤ length bytes.now }
    requires place { wish.entry < 2 ^ 32 }
    requires marks { length marks.old ≡ sector_count fat.now.size bytes.now }
    ensures answer { (earlier : List ℕ) → Marks marks.old earlier → Gives stream result (mapped (long_stream fat.now.size bytes.now wish.size) (long_chain_of fat.now.size bytes.now (table fat.now) wish.start wish.size wish.entry earlier)) }
    ensures pieces { IfOk result (λ v. piece_count v ≡ div_ceil wish.size fat.now.size) }
    ensures marked { (earlier chain : List ℕ) → Marks marks.old earlier → long_chain_of fat.now.size bytes.now (table fat.now) wish.start wish.size wish.entry earlier ≡ Ok chain → IfOk result (λ _. Marks marks.new (earlier ++ chain)) }
    ensures steps { (earlier chain : List ℕ) → Marks marks.old earlier → long_chain_of fat.now.size bytes.now (table fat.now) wish.start wish.size wish.entry earlier ≡ Ok chain → IfOk result (λ _. walk.new ≡ stepped walk.old (length chain)) }
    ensures length { length marks.new ≡ length marks.old }
    ensures stay { Stay marks.old marks.new }
    ensures bounded { walk.new + unmarked marks.new ≤ walk.old + unmarked marks.old }
    ensures grows { walk.old ≤ walk.new }
{
    let taken = take_long_chain(alloc, bytes, fat, wish, marks, walk)?;
    Ok(StreamView::new(bytes, taken.starts, fat.size, wish.size as u32))
}

/// The stream that an entry tells of, whose chain is in the mini FAT. [MS-CFB 2.4, 2.6.3]
pub fn view_short<'a>(
    alloc: Global,
    bytes: &'a [u8],
    from: &Mini,
    wish: Wish,
    marks: &mut SectorMarks,
    walk: &mut Walk,
) -> Result<StreamView<'a>, Stop>
    requires short { length bytes.now ≤ 268435456 }
    requires small { wish.size < 4096 }
    requires place { wish.entry < 2 ^ 32 }
    requires marks { length marks.old ≡ mini_bound (mini_seen from.now) }
    requires enough { from.now.size ≤ from.now.fat.size * vec_len from.now.stream }
    requires within { lie_below (length bytes.now) (places_of from.now.fat.size (starts_of from.now.fat.size from.now.stream.items) from.now.size) ≡ true }
    requires below { All (λ n. n < 524288) from.now.stream.items }
    ensures answer { (earlier : List ℕ) → Marks marks.old earlier → Gives stream result (mapped (short_stream from.now.fat.size bytes.now (mini_seen from.now) wish.size) (short_chain_of from.now.fat.size (mini_seen from.now) wish.start wish.size wish.entry earlier)) }
    ensures pieces { IfOk result (λ v. piece_count v ≡ div_ceil wish.size 64) }
    ensures marked { (earlier chain : List ℕ) → Marks marks.old earlier → short_chain_of from.now.fat.size (mini_seen from.now) wish.start wish.size wish.entry earlier ≡ Ok chain → IfOk result (λ _. Marks marks.new (earlier ++ chain)) }
    ensures steps { (earlier chain : List ℕ) → Marks marks.old earlier → short_chain_of from.now.fat.size (mini_seen from.now) wish.start wish.size wish.entry earlier ≡ Ok chain → IfOk result (λ _. walk.new ≡ stepped walk.old (length chain)) }
    ensures length { length marks.new ≡ length marks.old }
    ensures stay { Stay marks.old marks.new }
    ensures bounded { walk.new + unmarked marks.new ≤ walk.old + unmarked marks.old }
    ensures grows { walk.old ≤ walk.new }
{
    let taken = take_short_chain(alloc, from, wish, marks, walk)?;
    let starts = mini_starts(alloc, from.fat.size, &from.stream, &taken.starts)?;
    Ok(StreamView::new(bytes, starts, 64, wish.size as u32))
}
