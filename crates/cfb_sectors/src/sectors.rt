//! A compound file whose tables are read.
ghost use Rattle.std.specs.Prelude.{◌≡◌, ℕ, ◌+◌, ◌≤◌, ◌<◌, ◌++◌, List, [], length, IfOk, Ok};
ghost use Rattle.carrier_model.specs.Loads.{load_of, taken_by, mini_bound, long_part, short_part};
ghost use Rattle.carrier_model.specs.Marks.{Marks, unmarked};
ghost use Rattle.carrier_model.specs.Sectors.{sector_count};
ghost use Rattle.carrier_model.specs.Tables.{sector_size};
ghost use Rattle.carrier_io.specs.Reads.{Gives};
ghost use Rattle.carrier_io.specs.Steps.{stepped};
ghost use Rattle.cfb_sectors.specs.States.{State, IsKept, entries, entry_of, place_of, pieces_of, chain_claimed, stream_claimed};
ghost use Rattle.cfb_sectors.specs.Seen.{stream, piece_count};
ghost use Rattle.cfb_sectors.specs.Stays.{Stay};
ghost use Rattle.cfb_sectors.specs.Views.{table, mini_seen, entry};

use crate::claims::{view_long, view_short};
use crate::entry::{Entry, entry_place, read_class, read_entry};
use crate::fat::Fat;
use crate::fields::{CLASS, ENTRY, OBJECT_TYPE, ROOT};
use crate::header::fault;
use crate::loading::{Tables, load_tables, no_marks};
use crate::marks::SectorMarks;
use crate::mini::load_mini;
use crate::streams::{Mini, Wish};
use crate::view::StreamView;
use carrier_io::{Reason, Stop, Walk};
use std::alloc::Global;
use std::marker::Model;

/// A stream of so many bytes has a chain in the FAT, a shorter one in the mini FAT [MS-CFB 2.2].
const LONG: u64 = 4096;

/// A compound file [MS-CFB 2.1] whose header, tables and directory chain are read, with marks of the sectors that are
/// taken.
#[derive(Drop)]
pub struct Sectors<'a> {
    bytes: &'a [u8],
    difat: Vec<u32>,
    fat: Fat,
    directory: Vec<u32>,
    mini: Mini,
    marks: SectorMarks,
    mini_marks: SectorMarks,
}

impl<'a> Model for Sectors<'a> {
    ghost Value = { State };

    ghost view = { λ s. record { file = s.bytes.now; size = s.fat.size; loaded = record { difat = s.difat.items; table = table s.fat; directory = s.directory.items; mini = mini_seen s.mini }; marks = s.marks; mini_marks = s.mini_marks } };

    ghost invariant = { λ s. IsKept (record { file = s.bytes.now; size = s.fat.size; loaded = record { difat = s.difat.items; table = table s.fat; directory = s.directory.items; mini = mini_seen s.mini }; marks = s.marks; mini_marks = s.mini_marks }) × (s.mini.fat.size ≡ s.fat.size) };
}

impl<'a> Sectors<'a> {
    /// Reads the header, the DIFAT, the FAT, the directory's chain, the mini FAT and the mini stream's chain [MS-CFB 2.2 to
    /// 2.6], of a file of at most 268,435,456 bytes. The first fault of these, at the field or word that names what is
    /// wrong. The walk counts each word that is followed.
    #[tactic(auto, unfolding(carrier_model::specs::Loads::load_of))]
    pub fn load(alloc: Global, bytes: &'a [u8], walk: &mut Walk) -> Result<Sectors<'a>, Stop>
        requires short { length bytes.now ≤ 268435456 }
        ensures answer { Gives (λ s. s.loaded) result (load_of (sector_size bytes.now) bytes.now) }
        ensures file { IfOk result (λ s. (s.file ≡ bytes.now) × (s.size ≡ sector_size bytes.now)) }
        ensures some { IfOk result (λ s. 1 ≤ length s.loaded.directory) }
        ensures root { IfOk result (λ s. (entry_of s 0).kind ≡ 5) }
        ensures few { IfOk result (λ s. mini_bound s.loaded.mini ≤ 4194304) }
        ensures marks { IfOk result (λ s. Marks s.marks (taken_by s.loaded)) }
        ensures mini_marks { IfOk result (λ s. Marks s.mini_marks []) }
        ensures steps { IfOk result (λ s. walk.new ≡ stepped walk.old (length s.loaded.directory + length s.loaded.mini.table.sectors + length s.loaded.mini.stream)) }
        ensures left { IfOk result (λ s. walk.new + unmarked s.marks ≤ walk.old + sector_count (sector_size bytes.now) bytes.now) }
        ensures left_mini { IfOk result (λ s. unmarked s.mini_marks ≡ mini_bound s.loaded.mini) }
        ensures bounded { walk.new ≤ walk.old + sector_count (sector_size bytes.now) bytes.now }
        ensures grows { walk.old ≤ walk.new }
    {
        let Tables {
            header,
            difat,
            fat,
            directory,
            mut marks,
        } = load_tables(alloc, bytes, walk)?;
        let place = entry_place(bytes, fat.size, &directory, 0);
        let root = read_entry(bytes, fat.size, place);
        if root.kind != ROOT {
            return Err(Stop::Fault(fault(Reason::BadEntryType, place + OBJECT_TYPE)));
        }
        let wish = Wish {
            start: root.start,
            size: root.size,
            entry: place,
        };
        let mini = load_mini(alloc, bytes, &fat, header.mini_fat, wish, &mut marks, walk)?;
        let count = (mini.size.div_ceil(64) as usize).min(mini.fat.len() as usize);
        let mini_marks = no_marks(alloc, count)?;
        Ok(Sectors {
            bytes,
            difat,
            fat,
            directory,
            mini,
            marks,
            mini_marks,
        })
    }

    /// How many entries the directory has [MS-CFB 2.6].
    pub fn entries(&self) -> u32
        ensures { result ≡ entries self.now }
    {
        self.fat.size / ENTRY * self.directory.len() as u32
    }

    /// An entry of the directory [MS-CFB 2.6.1].
    #[inline(always)]
    pub fn entry(&self, id: u32) -> Entry
        requires { id < entries self.now }
        ensures { entry result ≡ entry_of self.now id }
    {
        read_entry(
            self.bytes,
            self.fat.size,
            entry_place(self.bytes, self.fat.size, &self.directory, id),
        )
    }

    /// The object type of an entry [MS-CFB 2.6.1].
    pub fn kind(&self, id: u32) -> u8
        requires { id < entries self.now }
        ensures { result ≡ (entry_of self.now id).kind }
    {
        self.bytes[entry_place(self.bytes, self.fat.size, &self.directory, id) + OBJECT_TYPE]
    }

    /// The class of an entry [MS-CFB 2.6.1].
    pub fn class(&self, id: u32) -> [u8; 16]
        requires { id < entries self.now }
        ensures { result ≡ (entry_of self.now id).class }
    {
        let place = entry_place(self.bytes, self.fat.size, &self.directory, id);
        read_class(self.bytes, place + CLASS)
    }

    /// The file offset of an entry's first byte.
    pub fn entry_offset(&self, id: u32) -> u64
        requires { id < entries self.now }
        ensures place { result ≡ place_of self.now id }
        ensures inside { result + 128 ≤ 268435456 }
    {
        entry_place(self.bytes, self.fat.size, &self.directory, id) as u64
    }

    /// The FAT [MS-CFB 2.3].
    pub fn table(&self) -> &Fat
        ensures table { table result.now ≡ self.now.loaded.table }
        ensures size { result.now.size ≡ self.now.size }
    {
        &self.fat
    }

    /// The mini FAT [MS-CFB 2.4], which has no words where the mini stream is empty.
    pub fn mini_table(&self) -> &Fat
        ensures table { table result.now ≡ self.now.loaded.mini.table }
        ensures size { result.now.size ≡ self.now.size }
    {
        &self.mini.fat
    }

    /// The stream of an entry [MS-CFB 2.6.3], whose sectors are marked. An empty stream takes none. SectorOutOfRange, Cycle, Shared or
    /// ShortChain at the field or word that names what may not follow; FileTruncated at the entry's size. Whatever is
    /// answered, what was marked stays marked; after a fault or want of memory further sectors may be marked.
    #[tactic(auto, unfolding(carrier_model::specs::Loads::claim_of))]
    pub fn claim(&mut self, alloc: Global, id: u32, walk: &mut Walk) -> Result<StreamView<'a>, Stop>
        requires { id < entries self.old }
        ensures answer { (long short : List ℕ) → Marks self.old.marks long → Marks self.old.mini_marks short → Gives stream result (stream_claimed self.old id long short) }
        ensures pieces { IfOk result (λ v. piece_count v ≡ pieces_of self.old id) }
        ensures marked { (long short chain : List ℕ) → Marks self.old.marks long → Marks self.old.mini_marks short → chain_claimed self.old id long short ≡ Ok chain → IfOk result (λ _. Marks self.new.marks (long ++ long_part (entry_of self.old id) chain) × Marks self.new.mini_marks (short ++ short_part (entry_of self.old id) chain)) }
        ensures steps { (long short chain : List ℕ) → Marks self.old.marks long → Marks self.old.mini_marks short → chain_claimed self.old id long short ≡ Ok chain → IfOk result (λ _. walk.new ≡ stepped walk.old (length chain)) }
        ensures same { self.new ≡ record self.old { marks = self.new.marks; mini_marks = self.new.mini_marks } }
        ensures stay { Stay self.old.marks self.new.marks × Stay self.old.mini_marks self.new.mini_marks }
        ensures bounded { walk.new + unmarked self.new.marks + unmarked self.new.mini_marks ≤ walk.old + unmarked self.old.marks + unmarked self.old.mini_marks }
        ensures grows { walk.old ≤ walk.new }
    {
        let place = entry_place(self.bytes, self.fat.size, &self.directory, id);
        let entry = read_entry(self.bytes, self.fat.size, place);
        let wish = Wish {
            start: entry.start,
            size: entry.size,
            entry: place,
        };
        if entry.size == 0 {
            Ok(StreamView::empty(alloc))
        } else if entry.size >= LONG {
            view_long(alloc, self.bytes, &self.fat, wish, &mut self.marks, walk)
        } else {
            view_short(
                alloc,
                self.bytes,
                &self.mini,
                wish,
                &mut self.mini_marks,
                walk,
            )
        }
    }
}
