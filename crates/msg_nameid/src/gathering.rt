//! The streams of a name map, gathered name by name.
ghost use Rattle.std.specs.Prelude.{◌≡◌, ◌≤◌, ◌<◌, ◌+◌, ◌++◌, length, replicate, IfOk, OnOk};
ghost use Rattle.carrier_model.specs.Bytes as fields;
ghost use Rattle.msg_model.specs.WrittenNames as written;
ghost use Rattle.msg_nameid.specs.Gathered.{nothing, with_name};
ghost use Rattle.prop_names.specs.Meaning.{name_of};

use crate::cyclic_sums::ByteSums;
use crate::hashes::{Hashes, push_pair};
use crate::sets::Sets;
use carrier_io::{NoMemory, le16, le32, pad4};
use prop_names::Name;
use std::alloc::Global;
use std::marker::Model;

/// The streams, as far as names were added.
#[derive(Drop)]
pub(crate) struct Streams {
    pub(crate) sets: Sets,
    pub(crate) entries: Vec<u8>,
    pub(crate) texts: Vec<u8>,
    pub(crate) hashes: Hashes,
    sums: ByteSums,
}

impl Model for Streams {
    ghost use Rattle.msg_nameid.specs.Gathered.{Gathered};

    ghost Value = { Gathered };

    ghost view = { λ s. record { sets = s.sets; entries = s.entries.items; texts = s.texts.items; hashes = s.hashes } };
}

impl Streams {
    /// Those of no name.
    pub(crate) fn new(alloc: Global) -> Result<Streams, NoMemory>
        ensures { IfOk result (λ s. s ≡ nothing) }
    {
        Ok(Streams {
            sets: Sets::new(alloc),
            entries: Vec::new(alloc),
            texts: Vec::new(alloc),
            hashes: Hashes::new(alloc)?,
            sums: ByteSums::new(),
        })
    }

    /// Adds the name with a property index. [MS-OXMSG 2.2.3]
    pub(crate) fn push(&mut self, index: u32, name: &Name) -> Result<(), NoMemory>
        requires index { index < 32000 }
        requires few { length self.old.sets ≤ index }
        ensures value { OnOk result (self.new ≡ with_name self.old index (name_of name.now)) }
        ensures few { OnOk result (length self.new.sets ≤ index + 1) }
    {
        let set = self.sets.place(&name.set())?;
        let low = set * 2 + kind_bit(name);
        let word = index * 65536 + low;
        push_pair(&mut self.entries, label(&self.texts, name), le32(word))?;
        push_text(&mut self.texts, name)?;
        let number = hash_number(&self.sums, name);
        self.hashes
            .push(((number ^ low) % 31) as usize, number, word)
    }
}

/// 1 for a text.
fn kind_bit(name: &Name) -> u32
    ensures { result ≡ written.kind_bit (name_of name.now) }
{
    match name {
        Name::Number { .. } => 0,
        Name::Text(_) => 1,
    }
}

/// The number of a name, or the place of its text, which goes behind the others.
fn label(texts: &[u8], name: &Name) -> [u8; 4]
    ensures { result ≡ fields.le32 (written.label_number (length texts.now) (name_of name.now)) }
{
    match name {
        Name::Number { number, .. } => le32(*number),
        Name::Text(_) => low_bytes(texts.len()),
    }
}

/// The lower four bytes of a size.
fn low_bytes(size: usize) -> [u8; 4]
    ensures { result ≡ fields.le32 size }
{
    le32((size % 0x1_0000_0000) as u32)
}

/// What a name is hashed by: its number, or the cyclic sum of its text.
fn hash_number(sums: &ByteSums, name: &Name) -> u32
    ensures { result ≡ written.hash_number (name_of name.now) }
{
    match name {
        Name::Number { number, .. } => *number,
        Name::Text(text) => sums.of_units(text.units.as_slice()),
    }
}

/// Puts the text of a name behind the others. [MS-OXMSG 2.2.3.1.3]
fn push_text(texts: &mut Vec<u8>, name: &Name) -> Result<(), NoMemory>
    ensures { OnOk result (texts.new.items ≡ texts.old.items ++ written.text_of (name_of name.now)) }
{
    match name {
        Name::Number { .. } => Ok(()),
        Name::Text(text) => push_units(texts, text.units.as_slice()),
    }
}

/// Puts a length in bytes, units, and zeros to a multiple of four behind bytes.
fn push_units(texts: &mut Vec<u8>, units: &[u16]) -> Result<(), NoMemory>
    ensures { OnOk result (texts.new.items ≡ texts.old.items ++ written.text_entry units.now) }
{
    let size = 2 * units.len();
    texts.extend_from_slice(&low_bytes(size))?;
    let first = texts.len();
    texts.resize(first + size + pad4(size as u64) as usize, 0)?;
    for k in 0..units.len() {
        let [low, high] = le16(units[k]);
        texts[first + 2 * k] = low;
        texts[first + 2 * k + 1] = high;
    }
    Ok(())
}
