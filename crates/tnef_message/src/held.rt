//! What the values of a message that was read are held in.
use carrier_io::{Blob, Holds, NoMemory};
use cfb_sectors::StreamView;
use std::alloc::Global;

/// Bytes of a TNEF stream that was read, of the stream itself or of a stream of a compound file that lies in it, which stay
/// in the input; or bytes that were put in their place.
#[derive(Drop)]
pub enum Held<'a> {
    /// Bytes of the stream.
    Slice(&'a [u8]),
    /// Bytes of a compound file's stream.
    View(Box<StreamView<'a>>),
    /// Bytes of its own.
    Owned(Box<Vec<u8>>),
}

impl<'a> Blob for Held<'a> {
    ghost use Rattle.tnef_message.specs.HeldBytes.{held_bytes, held_count, held_part, held_joins};

    ghost bytes = { held_bytes };

    ghost count = { held_count };

    ghost part = { held_part };

    ghost joins = { held_joins };

    fn len(&self) -> usize {
        match self {
            Held::Slice(bytes) => bytes.len(),
            Held::View(view) => view.len(),
            Held::Owned(bytes) => bytes.len(),
        }
    }

    fn pieces(&self) -> usize {
        match self {
            Held::Slice(_) => 1,
            Held::View(view) => view.pieces(),
            Held::Owned(_) => 1,
        }
    }

    fn piece(&self, k: usize) -> &[u8] {
        match self {
            Held::Slice(bytes) => bytes,
            Held::View(view) => view.slice(k),
            Held::Owned(bytes) => bytes.as_slice(),
        }
    }
}

impl<'a> Holds<&'a [u8]> for Held<'a> {
    fn holding(_: Global, bytes: &'a [u8]) -> Result<Held<'a>, NoMemory> {
        Ok(Held::Slice(bytes))
    }
}

impl<'a> Holds<StreamView<'a>> for Held<'a> {
    fn holding(alloc: Global, view: StreamView<'a>) -> Result<Held<'a>, NoMemory> {
        if view.len() == 0 {
            return Ok(Held::Slice(&[]));
        }
        Ok(Held::View(Box::new(alloc, view)?))
    }
}

impl<'a> Holds<Vec<u8>> for Held<'a> {
    fn holding(alloc: Global, bytes: Vec<u8>) -> Result<Held<'a>, NoMemory> {
        if bytes.is_empty() {
            return Ok(Held::Slice(&[]));
        }
        Ok(Held::Owned(Box::new(alloc, bytes)?))
    }
}
