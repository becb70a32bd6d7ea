//! Bytes that are appended and added up.
ghost use Rattle.std.specs.Prelude.{◌≡◌, ◌%◌, replicate, sum};
ghost use Rattle.carrier_io.specs.Summed.{Sums};

use crate::blob::Blob;
use crate::devices::Sink;
use crate::failures::Failed;
use crate::whole::write_pieces;

/// A piece of zeros.
static ZEROS: [u8; 512] = [0; 512];

/// The sum of the bytes modulo 65,536.
pub fn sum_of(bytes: &[u8]) -> u16
    ensures { result ≡ sum bytes.now % 65536 }
{
    let mut sum = 0u16;
    for byte in bytes {
        sum = sum.wrapping_add(u16::from(*byte));
    }
    sum
}

/// Appends all the bytes, and answers their sum modulo 65,536. Failed says that the sink failed; then a front of them
/// may stand there.
pub fn append<W: Sink>(sink: &mut W, bytes: &[u8]) -> Result<u16, Failed>
    ensures { Sums (W.held sink.old) (W.held sink.new) (W.faults sink.old) (W.faults sink.new) result bytes.now }
{
    write_pieces(sink, bytes)?;
    Ok(sum_of(bytes))
}

/// Appends so many zeros, as `append` does.
pub fn append_zeros<W: Sink>(sink: &mut W, count: u64) -> Result<u16, Failed>
    ensures { Sums (W.held sink.old) (W.held sink.new) (W.faults sink.old) (W.faults sink.new) result (replicate count 0) }
{
    let mut left = count;
    let mut sum = 0u16;
    while left > 0 {
        let part = left.min(ZEROS.len() as u64) as usize;
        sum = sum.wrapping_add(append(sink, &ZEROS[..part])?);
        left -= part as u64;
    }
    Ok(sum)
}

/// Appends the bytes of a blob piece by piece, as `append` does.
pub fn append_blob<B: Blob, W: Sink>(sink: &mut W, blob: &B) -> Result<u16, Failed>
    ensures { Sums (W.held sink.old) (W.held sink.new) (W.faults sink.old) (W.faults sink.new) result (B.bytes blob.now) }
{
    let mut sum = 0u16;
    for k in 0..blob.pieces() {
        sum = sum.wrapping_add(append(sink, blob.piece(k))?);
    }
    Ok(sum)
}
