//! Chains, each walked to its end.
ghost use Rattle.std.specs.Prelude.{◌≡◌, ℕ, ◌+◌, ◌<◌, ◌≤◌, ◌++◌, List, vec_len, length, IfOk, All};
ghost use Rattle.carrier_model.specs.Chains.{chain_of, named_at, stop_reason};
ghost use Rattle.carrier_model.specs.Marks.{Marks, unmarked};
ghost use Rattle.carrier_model.specs.Sectors.{word_offset};
ghost use Rattle.carrier_io.specs.Reads.{Gives};
ghost use Rattle.carrier_io.specs.Reasons.{number_of};
ghost use Rattle.carrier_io.specs.Steps.{stepped};
ghost use Rattle.cfb_sectors.specs.Stays.{Stay};

use crate::fat::Fat;
use crate::following::{Followed, follow};
use crate::marks::SectorMarks;
use carrier_io::{Fault, Reason, Stop, Walk};
use std::alloc::Global;

/// The word that ends a chain [MS-CFB 2.1].
const END_OF_CHAIN: u32 = 0xFFFF_FFFE;

/// Where a chain starts, and the offset of the field that says so.
#[derive(Clone, Copy)]
pub struct Start {
    pub sector: u32,
    pub field: usize,
}

/// What is asked of a chain's sectors.
#[derive(Clone, Copy)]
pub struct Limits {
    /// Each is below this.
    pub bound: u32,
    /// Each is below this too, where each has to be whole.
    pub whole: u32,
    /// How many there are at least.
    pub need: usize,
}

/// The chain from a start, whose sectors are marked. SectorOutOfRange, Cycle, Shared, ShortChain or FileTruncated at the
/// word or field that names what may not follow.
pub fn take_chain(
    alloc: Global,
    table: &Fat,
    start: Start,
    limits: Limits,
    marks: &mut SectorMarks,
    walk: &mut Walk,
) -> Result<Vec<u32>, Stop>
    requires in_table { limits.bound ≤ vec_len table.now.words }
    requires in_marks { limits.bound ≤ length marks.old }
    ensures answer { (earlier : List ℕ) → Marks marks.old earlier → Gives (λ v. v.items) result (chain_of table.now.words.items (word_offset table.now.size table.now.sectors.items) start.sector start.field limits.bound limits.whole limits.need earlier) }
    ensures marked { (earlier : List ℕ) → Marks marks.old earlier → IfOk result (λ v. Marks marks.new (earlier ++ v.items)) }
    ensures enough { IfOk result (λ v. limits.need ≤ vec_len v) }
    ensures few { IfOk result (λ v. vec_len v ≤ length marks.old) }
    ensures below { IfOk result (λ v. All (λ n. n < limits.bound) v.items) }
    ensures whole { IfOk result (λ v. All (λ n. n < limits.whole) v.items) }
    ensures steps { IfOk result (λ v. walk.new ≡ stepped walk.old (vec_len v)) }
    ensures length { length marks.new ≡ length marks.old }
    ensures stay { Stay marks.old marks.new }
    ensures bounded { walk.new + unmarked marks.new ≤ walk.old + unmarked marks.old }
    ensures grows { walk.old ≤ walk.new }
{
    let Followed { chain, stop } = follow(
        alloc,
        table,
        start.sector,
        limits.bound,
        limits.whole,
        marks,
        walk,
    )?;
    let offset = named_at(table, start.field as u64, &chain);
    if stop != END_OF_CHAIN {
        let reason = stop_reason(stop, limits.bound, &chain, marks);
        return Err(Stop::Fault(Fault { reason, offset }));
    }
    if chain.len() < limits.need {
        return Err(Stop::Fault(Fault {
            reason: Reason::ShortChain,
            offset,
        }));
    }
    Ok(chain)
}

/// The offset of the field or word that names what follows a list.
#[tactic(auto, using(carrier_model::proofs::ChainEnds::named))]
fn named_at(table: &Fat, field: u64, chain: &[u32]) -> u64
    requires { All (λ n. n < vec_len table.now.words) chain.now }
    ensures { result ≡ named_at (word_offset table.now.size table.now.sectors.items) field chain.now }
{
    match chain.last() {
        Some(&last) => table.word_offset(last),
        None => field,
    }
}

/// Why a number may not follow a list, where these marks are those of the list and of the earlier ones.
fn stop_reason(stop: u32, bound: u32, chain: &[u32], marks: &SectorMarks) -> Reason
    requires { bound ≤ length marks.now }
    ensures { (earlier : List ℕ) → Marks marks.now (chain.now ++ earlier) → number_of result ≡ stop_reason bound earlier chain.now stop }
{
    if stop >= bound {
        Reason::SectorOutOfRange
    } else if chain.contains(&stop) {
        Reason::Cycle
    } else if marks.has(stop) {
        Reason::Shared
    } else {
        Reason::FileTruncated
    }
}
