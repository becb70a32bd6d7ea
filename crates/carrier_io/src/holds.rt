//! Blobs that other blobs become.
ghost use Rattle.std.specs.Prelude.{◌≡◌, IfOk};

use crate::blob::Blob;
use crate::failures::NoMemory;
use std::alloc::Global;

/// A blob that another may become, where there is memory. The bytes stay where they are.
pub trait Holds<B: Blob>: Blob {
    /// The blob of another's bytes. NoMemory says that memory ran out.
    fn holding(alloc: Global, blob: B) -> Result<Self, NoMemory>
        ensures { IfOk result (λ r. Self.bytes r ≡ B.bytes blob) };
}

impl Holds<Vec<u8>> for Vec<u8> {
    fn holding(_: Global, blob: Vec<u8>) -> Result<Vec<u8>, NoMemory> {
        Ok(blob)
    }
}
