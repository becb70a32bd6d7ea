//! Where reading stands.
ghost use Rattle.std.specs.Prelude.{◌+◌, ◌*◌, ◌≤◌, length};

/// Bytes that are still to be read, and the place of the first in the whole input.
#[derive(Clone, Copy)]
pub struct Rest<'a> {
    pub bytes: &'a [u8],
    pub place: u64,
    ghost few: { place + length bytes.now ≤ 0x1000_0000 },
}

impl<'a> Rest<'a> {
    /// How much room to make for so many values, each of four bytes or more: never more than the bytes can hold.
    pub fn room_for(&self, count: u32) -> usize
        ensures { result * 4 ≤ length self.now.bytes.now }
    {
        (count as usize).min(self.bytes.len() / 4)
    }
}
