//! A stream as a view of the input.
ghost use Rattle.std.specs.Prelude.{◌≡◌, ◌≤◌, ◌<◌, ◌*◌, true, length, vec_len, IsTrue};
ghost use Rattle.carrier_model.specs.Streams.{is_piece, places_of, lie_below};

use carrier_io::{Blob, NoMemory};
use std::alloc::{AllocError, Global};

/// A stream's bytes, which stay in the input: one piece for each sector or mini sector, all of one length but the last,
/// which ends with the stream [MS-CFB 2.3, 2.4].
#[derive(Drop)]
pub struct StreamView<'a> {
    file: &'a [u8],
    starts: Vec<u32>,
    each: u32,
    len: u32,
    ghost few: { length file.now ≤ 268435456 },
    ghost small: { len < 268435456 },
    ghost cut: { IsTrue (is_piece each) },
    ghost enough: { len ≤ each * vec_len starts },
    ghost within: { lie_below (length file.now) (places_of each starts.items len) ≡ true },
}

impl<'a> StreamView<'a> {
    ghost use Rattle.std.specs.Prelude.{◌≡◌, ◌<◌, ◌≤◌, ◌+◌, ◌-◌, ◌*◌, ◌%◌, [], true, length, vec_len, get_or, take, drop, min, IsTrue, IfOk};
    ghost use Rattle.std.specs.Int.{div_ceil, from_le_bytes, w16, w32, w64};
    ghost use Rattle.carrier_model.specs.Streams.{is_piece, places_of, lie_below, content};
    ghost use Rattle.cfb_sectors.specs.Seen.{bytes_of, places, piece_of, piece_count, number_in};

    /// The view of no bytes. It takes no memory.
    pub fn empty(alloc: Global) -> StreamView<'a>
        ensures bytes { bytes_of result ≡ [] }
        ensures places { places result ≡ [] }
        ensures pieces { piece_count result ≡ 0 }
    {
        StreamView {
            file: &[],
            starts: Vec::new(alloc),
            each: 64,
            len: 0,
        }
    }

    /// The view of these pieces of a file.
    pub fn new(file: &'a [u8], starts: Vec<u32>, each: u32, len: u32) -> StreamView<'a>
        requires few { length file.now ≤ 268435456 }
        requires small { len < 268435456 }
        requires cut { IsTrue (is_piece each) }
        requires enough { len ≤ each * vec_len starts }
        requires within { lie_below (length file.now) (places_of each starts.items len) ≡ true }
        ensures bytes { bytes_of result ≡ content file.now (places_of each starts.items len) }
        ensures places { places result ≡ places_of each starts.items len }
        ensures pieces { piece_count result ≡ div_ceil len each }
    {
        StreamView {
            file,
            starts,
            each,
            len,
        }
    }

    /// An equal view. NoMemory says that memory ran out.
    pub fn copy(&self) -> Result<StreamView<'a>, NoMemory>
        ensures bytes { IfOk result (λ v. bytes_of v ≡ bytes_of self.now) }
        ensures places { IfOk result (λ v. places v ≡ places self.now) }
        ensures pieces { IfOk result (λ v. piece_count v ≡ piece_count self.now) }
    {
        Ok(StreamView {
            file: self.file,
            starts: self.copy_starts()?,
            each: self.each,
            len: self.len,
        })
    }

    /// The view of the first bytes. NoMemory says that memory ran out.
    pub fn prefix(&self, len: usize) -> Result<StreamView<'a>, NoMemory>
        requires { len ≤ length (bytes_of self.now) }
        ensures bytes { IfOk result (λ v. bytes_of v ≡ take len (bytes_of self.now)) }
        ensures places { IfOk result (λ v. places v ≡ take len (places self.now)) }
        ensures pieces { IfOk result (λ v. piece_count v ≡ div_ceil len self.now.each) }
    {
        Ok(StreamView {
            file: self.file,
            starts: self.copy_starts()?,
            each: self.each,
            len: len as u32,
        })
    }

    /// The piece of this index, which outlives the view.
    pub fn slice(&self, k: usize) -> &'a [u8]
        requires { k < piece_count self.now }
        ensures { result.now ≡ piece_of self.now k }
    {
        let start = self.starts[k] as usize;
        let each = self.each as usize;
        let rest = self.len as usize - each * k;
        &self.file[start..start + rest.min(each)]
    }

    /// The byte at a place.
    pub fn byte(&self, at: usize) -> u8
        requires { at < length (bytes_of self.now) }
        ensures { result ≡ get_or (bytes_of self.now) at 0 }
    {
        self.file[self.offset(at)]
    }

    /// The bytes from a place on to the end of their piece, which outlive the view.
    pub fn rest(&self, at: usize) -> &'a [u8]
        requires { at < length (bytes_of self.now) }
        ensures bytes { result.now ≡ take (length result.now) (drop at (bytes_of self.now)) }
        ensures long { length result.now ≡ min (self.now.each - at % self.now.each) (length (bytes_of self.now) - at) }
        ensures some { 0 < length result.now }
    {
        let each = self.each as usize;
        let skipped = at % each;
        let start = self.starts[at / each] as usize + skipped;
        let rest = self.len as usize - at;
        &self.file[start..start + rest.min(each - skipped)]
    }

    /// Copies the bytes from a place on into the whole of a buffer, piece by piece.
    pub fn copy_range(&self, at: usize, into: &mut [u8])
        requires { at + length into.old ≤ length (bytes_of self.now) }
        ensures { into.new ≡ take (length into.old) (drop at (bytes_of self.now)) }
    {
        let mut done = 0;
        while done < into.len() {
            let part = self.rest(at + done);
            let count = part.len().min(into.len() - done);
            into[done..done + count].copy_from_slice(&part[..count]);
            done += count;
        }
    }

    /// The little-endian number in the two bytes at a place.
    pub fn u16_at(&self, at: usize) -> u16
        requires { at + 2 ≤ length (bytes_of self.now) }
        ensures { result ≡ from_le_bytes w16 (take 2 (drop at (bytes_of self.now))) }
    {
        let mut field = [0; 2];
        self.copy_range(at, &mut field);
        u16::from_le_bytes(field)
    }

    /// The little-endian number in the four bytes at a place.
    pub fn u32_at(&self, at: usize) -> u32
        requires { at + 4 ≤ length (bytes_of self.now) }
        ensures { result ≡ from_le_bytes w32 (take 4 (drop at (bytes_of self.now))) }
    {
        let mut field = [0; 4];
        self.copy_range(at, &mut field);
        u32::from_le_bytes(field)
    }

    /// The little-endian number in the eight bytes at a place.
    pub fn u64_at(&self, at: usize) -> u64
        requires { at + 8 ≤ length (bytes_of self.now) }
        ensures { result ≡ from_le_bytes w64 (take 8 (drop at (bytes_of self.now))) }
    {
        let mut field = [0; 8];
        self.copy_range(at, &mut field);
        u64::from_le_bytes(field)
    }

    /// The little-endian number of so many bytes at a place.
    pub fn number(&self, at: usize, width: usize) -> u64
        requires few { width ≤ 8 }
        requires inside { at + width ≤ length (bytes_of self.now) }
        ensures { result ≡ number_in (bytes_of self.now) at width }
    {
        let mut field = [0; 8];
        self.copy_range(at, &mut field[..width]);
        let mut value = 0;
        for i in 0..width {
            value = 256 * value + u64::from(field[width - 1 - i]);
        }
        value
    }

    /// Where its pieces begin.
    fn copy_starts(&self) -> Result<Vec<u32>, AllocError>
        ensures items { IfOk result (λ v. v.items ≡ self.now.starts.items) }
        ensures count { IfOk result (λ v. vec_len v ≡ vec_len self.now.starts) }
    {
        self.starts.clone()
    }

    /// Where a byte lies in the input.
    pub(crate) fn offset(&self, at: usize) -> usize
        requires { at < length (bytes_of self.now) }
        ensures place { result ≡ get_or (places self.now) at 0 }
        ensures inside { result < length self.now.file.now }
    {
        let each = self.each as usize;
        self.starts[at / each] as usize + at % each
    }
}

impl<'a> Blob for StreamView<'a> {
    ghost use Rattle.std.specs.Prelude.{refl};
    ghost use Rattle.std.specs.Int.{div_ceil};
    ghost use Rattle.cfb_sectors.specs.Seen.{bytes_of, piece_of, piece_count};
    ghost use Rattle.carrier_io.specs.Pieces.{joined};
    ghost use Rattle.carrier_model.proofs.ViewLaws.{pieces_join};

    ghost bytes = { bytes_of };

    ghost count = { piece_count };

    ghost part = { piece_of };

    ghost joins = { λ v. pieces_join v.file.now v.each v.starts.items v.len v.cut v.within (joined (piece_of v)) refl (λ _. refl) };

    fn len(&self) -> usize {
        self.len as usize
    }

    fn pieces(&self) -> usize {
        self.len.div_ceil(self.each) as usize
    }

    fn piece(&self, k: usize) -> &[u8] {
        self.slice(k)
    }
}
