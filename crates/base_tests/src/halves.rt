//! A blob in two pieces.
ghost use Rattle.std.specs.Prelude.{◌<◌, length};

use carrier_io::Blob;

/// Bytes in two borrowed pieces.
#[derive(Clone, Copy)]
pub struct Halves<'a> {
    pub first: &'a [u8],
    pub second: &'a [u8],
    ghost fits: { length first.now < 0x1000 },
    ghost fits_second: { length second.now < 0x1000 },
}

impl<'a> Blob for Halves<'a> {
    ghost use Rattle.std.specs.Prelude.{refl, ◌++◌, [], ◌∷◌, slice_index_or};

    ghost bytes = { λ h. h.first.now ++ h.second.now };

    ghost count = { λ _. 2 };

    ghost part = { λ h k. slice_index_or (h.first.now ∷ h.second.now ∷ []) k [] };

    ghost joins = { λ _. refl };

    fn len(&self) -> usize {
        self.first.len() + self.second.len()
    }

    fn pieces(&self) -> usize {
        2
    }

    fn piece(&self, k: usize) -> &[u8] {
        if k == 0 { self.first } else { self.second }
    }
}
