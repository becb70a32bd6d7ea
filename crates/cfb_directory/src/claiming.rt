//! The streams of a directory claimed.
ghost use Rattle.std.specs.Prelude.{◌≡◌, ◌+◌, ◌≤◌, ◌<◌, ◌&&◌, ℕ, List, length, filter, get_or, false, nat_eq, vec_len, IfOk};
ghost use Rattle.std.specs.List.{range_with_len};
ghost use Rattle.carrier_model.specs.Marks.{Marks, unmarked};
ghost use Rattle.cfb_sectors.specs.States.{entries};
ghost use Rattle.cfb_directory.specs.Nodes.{is_wanted, claims_in, AreClaimed};
ghost use Rattle.cfb_directory.specs.Walks.{directory_of};

use crate::streams::Streams;
use carrier_io::{Stop, Walk};
use cfb_sectors::fields::STREAM;
use cfb_sectors::{SectorMarks, Sectors, StreamView};
use std::alloc::Global;

/// Whether an entry of this type is a stream that was visited.
fn is_visited_stream(visited: &SectorMarks, id: u32, kind: u8) -> bool
    requires { id < length visited.now }
    ensures { result ≡ (get_or visited.now id false && nat_eq kind 2) }
{
    visited.has(id) && kind == STREAM
}

/// The streams of the entries that were visited. The first fault of a stream.
pub fn claim_streams<'a>(
    alloc: Global,
    sectors: &mut Sectors<'a>,
    visited: &SectorMarks,
    walk: &mut Walk,
) -> Result<Streams<'a>, Stop>
    requires { length visited.now ≡ entries sectors.old }
    ensures answer { (long short : List ℕ) → Marks sectors.old.marks long → Marks sectors.old.mini_marks short → AreClaimed sectors.old (is_wanted visited.now (directory_of sectors.old)) walk.old walk.new result (claims_in sectors.old (filter (is_wanted visited.now (directory_of sectors.old)) (range_with_len 0 (entries sectors.old))) long short) }
    ensures count { IfOk result (λ s. vec_len s.numbers ≡ entries sectors.old) }
    ensures same { sectors.new ≡ record sectors.old { marks = sectors.new.marks; mini_marks = sectors.new.mini_marks } }
    ensures bounded { walk.new + unmarked sectors.new.marks + unmarked sectors.new.mini_marks ≤ walk.old + unmarked sectors.old.marks + unmarked sectors.old.mini_marks }
    ensures grows { walk.old ≤ walk.new }
{
    let mut numbers = Vec::new(alloc);
    let mut views = Vec::new(alloc);
    views.push(StreamView::empty(alloc))?;
    for id in 0..sectors.entries() {
        if is_visited_stream(visited, id, sectors.kind(id)) {
            let stream = sectors.claim(alloc, id, walk)?;
            numbers.push(views.len() as u32)?;
            views.push(stream)?;
        } else {
            numbers.push(0)?;
        }
    }
    Ok(Streams { numbers, views })
}
