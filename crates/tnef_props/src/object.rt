//! Lists that were read, and the Object of an attachment.
ghost use Rattle.std.specs.Prelude.{◌+◌, ◌≤◌, length};

use carrier_io::Blob;
use prop_values::Props;

/// The bytes of an Object, and the place of the first in the whole input.
#[derive(Clone, Copy)]
pub struct Object<'a> {
    pub bytes: &'a [u8],
    pub offset: u64,
    pub ghost few: { offset + length bytes.now ≤ 0x1000_0000 },
}

/// A list that was read: its properties, the Object of an attachment, and the place behind the list.
#[derive(Drop)]
pub struct ReadList<'a, C: Blob> {
    pub props: Props<C>,
    pub object: Option<Object<'a>>,
    pub end: usize,
}
