//! Bytes in one piece.
ghost use Rattle.std.specs.Prelude.{◌≡◌, IfOk};

use crate::blob::Blob;
use crate::failures::NoMemory;
use std::alloc::Global;

/// A blob's bytes in one piece. Room for them all is taken at once. NoMemory says that memory ran out.
pub fn copy_bytes<B: Blob>(alloc: Global, blob: &B) -> Result<Vec<u8>, NoMemory>
    ensures { IfOk result (λ r. r.items ≡ B.bytes blob.now) }
{
    let mut all = Vec::with_capacity(alloc, blob.len())?;
    for k in 0..blob.pieces() {
        all.extend_from_slice(blob.piece(k))?;
    }
    Ok(all)
}
