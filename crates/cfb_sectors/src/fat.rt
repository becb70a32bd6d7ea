//! A table of words, one for each sector.
ghost use Rattle.std.specs.Prelude.{◌≡◌, ◌<◌, ◌≤◌, ◌*◌, vec_len, IsTrue, []};
ghost use Rattle.carrier_model.specs.Chains.{word};
ghost use Rattle.carrier_model.specs.Sectors.{is_size, word_offset};
ghost use Rattle.carrier_io.specs.Steps.{stepped};

use carrier_io::Walk;
use std::alloc::Global;

/// The words of the FAT or of the mini FAT, and the sectors that hold them [MS-CFB 2.3, 2.4]. The word of a sector names
/// the next one of its chain. No word is read without a step of a walk.
#[derive(Drop)]
pub struct Fat {
    pub(crate) size: u32,
    words: Vec<u32>,
    sectors: Vec<u32>,
    ghost sized: { IsTrue (is_size size) },
    ghost whole: { 4 * vec_len words ≡ size * vec_len sectors },
    ghost few: { vec_len words ≤ 67108864 },
}

impl Fat {
    /// The table of these words, which these sectors of so many bytes hold.
    pub(crate) fn new(size: u32, words: Vec<u32>, sectors: Vec<u32>) -> Fat
        requires sized { IsTrue (is_size size) }
        requires whole { 4 * vec_len words ≡ size * vec_len sectors }
        requires few { vec_len words ≤ 67108864 }
        ensures size { result.size ≡ size }
        ensures words { result.words ≡ words }
        ensures sectors { result.sectors ≡ sectors }
    {
        Fat {
            size,
            words,
            sectors,
        }
    }

    /// The table without words.
    pub(crate) fn empty(alloc: Global, size: u32) -> Fat
        requires { IsTrue (is_size size) }
        ensures size { result.size ≡ size }
        ensures words { result.words.items ≡ [] }
        ensures sectors { result.sectors.items ≡ [] }
    {
        Fat {
            size,
            words: Vec::new(alloc),
            sectors: Vec::new(alloc),
        }
    }

    /// How many words there are.
    pub fn len(&self) -> u32
        ensures count { result ≡ vec_len self.now.words }
        ensures few { result ≤ 67108864 }
    {
        self.words.len() as u32
    }

    /// The word of a sector [MS-CFB 2.3]. One step of the walk.
    pub fn next(&self, sector: u32, walk: &mut Walk) -> u32
        requires { sector < vec_len self.now.words }
        ensures word { result ≡ word self.now.words.items sector }
        ensures step { walk.new ≡ stepped walk.old 1 }
    {
        walk.tick();
        self.words[sector as usize]
    }

    /// Where the word of a sector lies in the file.
    #[tactic(auto, unfolding(carrier_model::specs::Sectors::word_offset))]
    pub fn word_offset(&self, sector: u32) -> u64
        requires { sector < vec_len self.now.words }
        ensures { result ≡ word_offset self.now.size self.now.sectors.items sector }
    {
        let words_each = self.size / 4;
        let holder = self.sectors[(sector / words_each) as usize];
        (u64::from(holder) + 1) * u64::from(self.size) + 4 * u64::from(sector % words_each)
    }
}
