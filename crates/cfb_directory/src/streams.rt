//! The streams of a directory.
ghost use Rattle.std.specs.Prelude.{◌<◌, vec_len, All};

use cfb_sectors::StreamView;

/// The streams of a directory: for each entry the number of its view. The first view has no bytes; it is that of the entries
/// that are no reached streams.
#[derive(Drop)]
pub struct Streams<'a> {
    pub numbers: Vec<u32>,
    pub views: Vec<StreamView<'a>>,
    ghost inside: { All (λ k. k < vec_len views) numbers.items },
}

impl<'a> Streams<'a> {
    ghost use Rattle.std.specs.Prelude.{◌≡◌, ◌<◌, vec_len};
    ghost use Rattle.cfb_sectors.specs.Seen.{stream as stream_seen};
    ghost use Rattle.cfb_directory.specs.Nodes.{stream_at};

    /// The stream of an entry.
    pub fn view(&self, entry: u32) -> &StreamView<'a>
        requires { entry < vec_len self.now.numbers }
        ensures { stream_seen result.now ≡ stream_at self.now.numbers.items self.now.views.items entry }
    {
        &self.views[self.numbers[entry as usize] as usize]
    }
}
