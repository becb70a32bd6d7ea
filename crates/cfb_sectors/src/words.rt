//! The words of a table.
ghost use Rattle.std.specs.Prelude.{◌≡◌, ◌+◌, ◌*◌, ◌/◌, ◌≤◌, ◌<◌, ◌++◌, length, IfOk, OnOk, All, vec_len, IsTrue};
ghost use Rattle.carrier_model.specs.Sectors.{is_size, whole_count, sector_words, table_words};

use crate::header::long;
use std::alloc::{AllocError, Global};

/// Appends the words of a sector.
fn push_words(
    words: &mut Vec<u32>,
    bytes: &[u8],
    size: usize,
    sector: u32,
) -> Result<(), AllocError>
    requires size { IsTrue (is_size size) }
    requires short { length bytes.now ≤ 268435456 }
    requires whole { sector < whole_count size bytes.now }
    ensures count { OnOk result (vec_len words.new ≡ vec_len words.old + size / 4) }
    ensures words { OnOk result (words.new.items ≡ words.old.items ++ sector_words size bytes.now sector) }
{
    let start = (sector as usize + 1) * size;
    for i in 0..size / 4 {
        words.push(long(bytes, start + 4 * i))?;
    }
    Ok(())
}

/// The words of these sectors, one after another.
pub fn read_words(
    alloc: Global,
    bytes: &[u8],
    size: usize,
    sectors: &[u32],
) -> Result<Vec<u32>, AllocError>
    requires size { IsTrue (is_size size) }
    requires short { length bytes.now ≤ 268435456 }
    requires whole { All (λ n. n < whole_count size bytes.now) sectors.now }
    ensures count { IfOk result (λ v. vec_len v ≡ size / 4 * length sectors.now) }
    ensures words { IfOk result (λ v. v.items ≡ table_words size bytes.now sectors.now) }
{
    let mut words = Vec::new(alloc);
    for sector in sectors {
        push_words(&mut words, bytes, size, *sector)?;
    }
    Ok(words)
}
