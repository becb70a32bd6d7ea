//! How much room trees need.
ghost use Rattle.std.specs.Prelude.{◌≡◌, ◌<◌, ◌+◌, ◌∷◌, [], ℕ, List, length, vec_len, IfOk};
ghost use Rattle.std.specs.List.{AllByRecursion};
ghost use Rattle.carrier_model.specs.FileTrees.{FileTree};
ghost use Rattle.carrier_model.specs.Totals.{capped};
ghost use Rattle.cfb_list.specs.Contents.{child_seen, file_children};
ghost use Rattle.cfb_list.specs.Listed as listed;
ghost use Rattle.cfb_writer.specs.Totals.{totals_of, AreKnown};
ghost use Rattle.cfb_list.specs.Trees.{inside};
ghost use Rattle.cfb_layout.specs.Versions.{sector_of};

use crate::streams::{Share, pieces_of};
use carrier_io::{Blob, NoMemory};
use cfb_layout::Version;
use cfb_list::{File, FileList, KindView};
use std::alloc::Global;

/// How many entries, mini sectors and sectors of streams of their own there are. A number above the greatest `u64` stays
/// there.
#[derive(Clone, Copy, Debug, PartialEq, Eq)]
pub struct Totals {
    pub entries: u64,
    pub mini: u64,
    pub long: u64,
}

/// Nothing.
const NOTHING: Totals = Totals {
    entries: 0,
    mini: 0,
    long: 0,
};

impl Totals {
    /// Both together.
    fn and(self, other: Totals) -> Totals
        ensures entries { result.entries ≡ capped (self.entries + other.entries) }
        ensures mini { result.mini ≡ capped (self.mini + other.mini) }
        ensures long { result.long ≡ capped (self.long + other.long) }
    {
        Totals {
            entries: self.entries.saturating_add(other.entries),
            mini: self.mini.saturating_add(other.mini),
            long: self.long.saturating_add(other.long),
        }
    }
}

/// What a stream needs, or a storage with what is in it.
fn kind_totals<B: Blob>(version: Version, kind: &KindView<'_, B>, totals: &[Totals]) -> Totals
    requires { (parent : ℕ) × listed.IsChild parent (length totals.now) (child_seen B.bytes [] kind.now) }
    ensures { (parent : ℕ) (name : List ℕ) (tree : ℕ → FileTree) → listed.IsChild parent (length totals.now) (child_seen B.bytes [] kind.now) → AreKnown (sector_of version) tree (parent + 1) totals.now → result ≡ totals_of (sector_of version) (listed.built tree (child_seen B.bytes name kind.now ∷ [])) }
{
    let own = Totals {
        entries: 1,
        mini: pieces_of(kind, Share::Short, version),
        long: pieces_of(kind, Share::Long, version),
    };
    match kind {
        KindView::Stream(_) => own,
        KindView::Storage { number, .. } => own.and(totals[*number]),
    }
}

/// What a file stands for needs so much.
fn file_totals<B: Blob>(version: Version, file: &File<'_, B>, totals: &[Totals]) -> Totals
    requires { (parent : ℕ) × AllByRecursion (listed.IsChild parent (length totals.now)) (file_children B.bytes file.now) }
    ensures { (parent : ℕ) (tree : ℕ → FileTree) → AllByRecursion (listed.IsChild parent (length totals.now)) (file_children B.bytes file.now) → AreKnown (sector_of version) tree (parent + 1) totals.now → result ≡ totals_of (sector_of version) (listed.built tree (file_children B.bytes file.now)) }
{
    let mut sum = NOTHING;
    for number in 0..file.count() {
        sum = sum.and(kind_totals(version, &file.kind_at(number), totals));
    }
    sum
}

/// What is in a storage needs so much.
fn family_totals<B: Blob>(
    version: Version,
    list: &FileList<'_, B>,
    parent: usize,
    totals: &[Totals],
) -> Totals
    requires parent { parent < length list.now.storages }
    requires many { length totals.now ≡ length list.now.storages }
    requires known { AreKnown (sector_of version) (inside list.now.storages) (parent + 1) totals.now }
    ensures { result ≡ totals_of (sector_of version) (inside list.now.storages parent) }
{
    let mut sum = NOTHING;
    for file in list.files_in(parent) {
        sum = sum.and(file_totals(version, file, totals));
    }
    sum
}

/// What is in each storage needs so much.
pub fn all_totals<B: Blob>(
    alloc: Global,
    version: Version,
    list: &FileList<'_, B>,
) -> Result<Vec<Totals>, NoMemory>
    ensures sound { listed.IsSound list.now.storages }
    ensures many { IfOk result (λ v. vec_len v ≡ length list.now.storages) }
    ensures known { IfOk result (λ v. AreKnown (sector_of version) (inside list.now.storages) 0 v.items) }
{
    let count = list.count();
    let mut totals = Vec::with_capacity(alloc, count)?;
    totals.resize(count, NOTHING)?;
    for done in 0..count {
        let parent = count - 1 - done;
        let sum = family_totals(version, list, parent, &totals);
        totals[parent] = sum;
    }
    Ok(totals)
}
