//! The header, the table and the directory's chain.
ghost use Rattle.std.specs.Prelude.{◌≡◌, ◌+◌, ◌≤◌, ◌<◌, [], length, IfOk, IfErr, All, vec_len};
ghost use Rattle.carrier_model.specs.Loads.{tables_of, taken_first};
ghost use Rattle.carrier_model.specs.Marks.{Marks, unmarked};
ghost use Rattle.carrier_model.specs.Sectors.{sector_count, whole_count};
ghost use Rattle.carrier_model.specs.Tables.{sector_size};
ghost use Rattle.carrier_io.specs.Reads.{Gives};
ghost use Rattle.carrier_io.specs.Steps.{stepped};
ghost use Rattle.carrier_io.specs.declared.reasons.Stop.TheVariants as stops;
ghost use Rattle.cfb_sectors.specs.Views.{tables};

use crate::chains::{Limits, Start, take_chain};
use crate::fat::Fat;
use crate::fields::DIRECTORY;
use crate::header::{Header, read_header, sector_count};
use crate::lists::{difat_count, take_difat, take_fat_sectors};
use crate::marks::SectorMarks;
use crate::words::read_words;
use carrier_io::{Stop, Walk};
use std::alloc::Global;

/// The header, the FAT and the directory's chain, with marks of what they take [MS-CFB 2.2, 2.3, 2.6].
#[derive(Drop)]
pub struct Tables {
    pub header: Header,
    pub difat: Vec<u32>,
    pub fat: Fat,
    pub directory: Vec<u32>,
    pub marks: SectorMarks,
}

/// The marks of so many sectors, none of them set.
pub fn no_marks(alloc: Global, count: usize) -> Result<SectorMarks, Stop>
    ensures none { IfOk result (λ m. Marks m []) }
    ensures count { IfOk result (λ m. length m ≡ count) }
    ensures unmarked { IfOk result (λ m. unmarked m ≡ count) }
    ensures memory { IfErr result (λ e. e ≡ stops.NoMemory) }
{
    Ok(SectorMarks::new(alloc, count)?)
}

/// Reads the header, the table and the directory's chain. The first fault of these, at its field.
#[tactic(auto, unfolding(carrier_model::specs::Loads::tables_of))]
pub fn load_tables(alloc: Global, bytes: &[u8], walk: &mut Walk) -> Result<Tables, Stop>
    requires short { length bytes.now ≤ 268435456 }
    ensures answer { Gives tables result (tables_of (sector_size bytes.now) bytes.now) }
    ensures size { IfOk result (λ t. t.fat.size ≡ sector_size bytes.now) }
    ensures long { IfOk result (λ t. sector_size bytes.now ≤ length bytes.now) }
    ensures marks { IfOk result (λ t. Marks t.marks (taken_first (tables t))) }
    ensures count { IfOk result (λ t. length t.marks ≡ sector_count (sector_size bytes.now) bytes.now) }
    ensures whole { IfOk result (λ t. All (λ n. n < whole_count (sector_size bytes.now) bytes.now) t.directory.items) }
    ensures few { IfOk result (λ t. vec_len t.directory ≤ sector_count (sector_size bytes.now) bytes.now) }
    ensures some { IfOk result (λ t. 1 ≤ vec_len t.directory) }
    ensures steps { IfOk result (λ t. walk.new ≡ stepped walk.old (vec_len t.directory)) }
    ensures left { IfOk result (λ t. walk.new + unmarked t.marks ≤ walk.old + sector_count (sector_size bytes.now) bytes.now) }
    ensures bounded { walk.new ≤ walk.old + sector_count (sector_size bytes.now) bytes.now }
    ensures grows { walk.old ≤ walk.new }
{
    let header = read_header(bytes)?;
    let size = header.size as usize;
    let mut marks = no_marks(alloc, sector_count(bytes, header.size))?;
    let count = difat_count(header.size, header.fat_count);
    let difat = take_difat(alloc, bytes, size, count, &mut marks)?;
    let sectors = take_fat_sectors(alloc, bytes, size, header.fat_count, &difat, &mut marks)?;
    let words = read_words(alloc, bytes, size, &sectors)?;
    let fat = Fat::new(header.size, words, sectors);
    let start = Start {
        sector: header.directory,
        field: DIRECTORY,
    };
    let limits = Limits {
        bound: marks.len().min(fat.len() as usize) as u32,
        whole: ((bytes.len() - size) / size) as u32,
        need: 1,
    };
    let directory = take_chain(alloc, &fat, start, limits, &mut marks, walk)?;
    Ok(Tables {
        header,
        difat,
        fat,
        directory,
        marks,
    })
}
