//! Where a stream's bytes lie.
ghost use Rattle.std.specs.Prelude.{◌≡◌, ◌<◌, length, get_or};
ghost use Rattle.cfb_sectors.specs.Seen.{bytes_of, places};

use crate::view::StreamView;

/// The input's offset of a byte of a stream, in bytes from the first.
pub fn file_offset(view: &StreamView<'_>, at: u64) -> u64
    requires { at < length (bytes_of view.now) }
    ensures { result ≡ get_or (places view.now) at 0 }
{
    view.offset(at as usize) as u64
}
