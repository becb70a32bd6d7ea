//! Few bytes that stand in place.
ghost use Rattle.std.specs.Prelude.{◌≡◌, ◌<◌, ◌≤◌, length, IfNone, IfSome};

/// At most 14 bytes.
#[derive(Clone, Copy)]
pub struct FewBytes {
    len: u8,
    bytes: [u8; 14],
    ghost fits: { len ≤ 14 },
}

impl FewBytes {
    ghost use Rattle.cfb_list.specs.Contents.{few_items};

    /// These bytes, where they are few; None where they are more.
    pub fn of_slice(slice: &[u8]) -> Option<FewBytes>
        ensures few { IfSome result (λ few. few_items few ≡ slice.now) }
        ensures many { IfNone result (14 < length slice.now) }
    {
        if slice.len() > 14 {
            return None;
        }
        let mut bytes = [0; 14];
        bytes[..slice.len()].copy_from_slice(slice);
        Some(FewBytes {
            len: slice.len() as u8,
            bytes,
        })
    }

    /// The bytes.
    pub fn as_slice(&self) -> &[u8]
        ensures { result.now ≡ few_items self.now }
    {
        &self.bytes[..self.len as usize]
    }
}
