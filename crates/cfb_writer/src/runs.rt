//! Words of the FAT, the mini FAT and the DIFAT, run by run.
ghost use Rattle.std.specs.Prelude.{◌≡◌, ◌<◌, ◌^◌};
ghost use Rattle.std.specs.List.{AllByRecursion, flat_map};
ghost use Rattle.carrier_model.specs.Layout as layout;
ghost use Rattle.cfb_writer.specs.Runs.{words_of, word_at, last_of};
ghost use Rattle.carrier_io.specs.Summed.{Sums};

use carrier_io::{Failed, Sink, append, le32};

/// The word that ends a chain. [MS-CFB 2.1]
pub const END_OF_CHAIN: u32 = 0xFFFF_FFFE;

/// The word of a sector that is not used. [MS-CFB 2.1]
pub const FREE_SECTOR: u32 = 0xFFFF_FFFF;

/// Words that follow a rule.
#[derive(Clone, Copy, Debug, PartialEq, Eq)]
pub enum Run {
    /// The same word each time.
    Same(u32),
    /// The words of consecutive sectors from this one on: each names the next, and the last one is the end.
    Chain(u32),
    /// This number and those that follow it.
    Numbers(u32),
}

impl Run {
    /// The word at a place, where there are so many.
    fn word(self, count: u32, k: u32) -> u32
        requires place { k < count }
        requires fits { last_of self count < 2 ^ 32 }
        ensures { result ≡ word_at self count k }
    {
        match self {
            Run::Same(word) => word,
            Run::Chain(first) => {
                if k + 1 == count {
                    END_OF_CHAIN
                } else {
                    first + k + 1
                }
            }
            Run::Numbers(first) => first + k,
        }
    }
}

/// Appends so many words of a run.
pub fn append_run<W: Sink>(sink: &mut W, run: Run, count: u32) -> Result<u16, Failed>
    requires { last_of run count < 2 ^ 32 }
    ensures { Sums (W.held sink.old) (W.held sink.new) (W.faults sink.old) (W.faults sink.new) result (layout.words_bytes (words_of run count)) }
{
    let mut sum = 0u16;
    for k in 0..count {
        sum = sum.wrapping_add(append(sink, &le32(run.word(count, k)))?);
    }
    Ok(sum)
}

/// Appends some runs, each with so many words.
pub fn append_runs<W: Sink>(sink: &mut W, runs: &[(Run, u32)]) -> Result<u16, Failed>
    requires { AllByRecursion (λ r. last_of r.0 r.1 < 2 ^ 32) runs.now }
    ensures { Sums (W.held sink.old) (W.held sink.new) (W.faults sink.old) (W.faults sink.new) result (layout.words_bytes (flat_map (λ r. words_of r.0 r.1) runs.now)) }
{
    let mut sum = 0u16;
    for k in 0..runs.len() {
        let (run, count) = runs[k];
        sum = sum.wrapping_add(append_run(sink, run, count)?);
    }
    Ok(sum)
}
