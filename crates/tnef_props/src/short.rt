//! Short pieces, which are most of a list.
ghost use Rattle.std.specs.Prelude.{◌≤◌, replicate};
ghost use Rattle.carrier_io.specs.Summed.{Sums};

use carrier_io::{Failed, Sink, sum_of, write_pieces};

/// The zeros behind a text: a null and the padding.
static ZEROS: [u8; 8] = [0; 8];

/// Appends the bytes of an array, as `append` does. How many they are is known where it is compiled, so that nothing is
/// left there of the loops of a longer piece.
#[inline(always)]
pub fn append_array<W: Sink, const N: usize>(sink: &mut W, bytes: &[u8; N]) -> Result<u16, Failed>
    ensures { Sums (W.held sink.old) (W.held sink.new) (W.faults sink.old) (W.faults sink.new) result bytes.now }
{
    write_pieces(sink, bytes)?;
    Ok(sum_of(bytes))
}

/// Appends so few zeros, which add nothing to the sum.
pub fn append_few_zeros<W: Sink>(sink: &mut W, count: usize) -> Result<u16, Failed>
    requires { count ≤ 8 }
    ensures { Sums (W.held sink.old) (W.held sink.new) (W.faults sink.old) (W.faults sink.new) result (replicate count 0) }
{
    write_pieces(sink, &ZEROS[..count])?;
    Ok(0)
}
