//! The storages and streams of a store by their paths, which may follow which, and what is kept of them.
//! [MS-CFB 1.3 and 2.6.4]
ghost use Rattle.std.specs.Prelude.{◌≡◌, ◌-◌, take, length, map, option_copied, option_to_list};
ghost use Rattle.std.specs.Cmp.Lexicographic.{slice_cmp};
ghost use Rattle.std.specs.Ordering.{is_lt};
ghost use Rattle.carrier_model.specs.FileTrees.{sibling_cmp};
ghost use Rattle.json_model.specs.StoreForms as plain;
ghost use Rattle.tree_from_json.specs.Entries.{entry_of, placed_of, shortened};

use carrier_io::Units;
use cfb_names::sibling_order;
use prop_names::Guid;
use std::alloc::Global;
use std::cmp::Ordering;

/// What a member is besides its name.
#[derive(Drop)]
pub(crate) enum Content {
    /// A storage of a class.
    Storage(Guid),
    /// The bytes of a stream.
    Stream(Vec<u8>),
}

/// A storage or a stream, by the names from the store down to it.
#[derive(Drop)]
pub(crate) struct Entry {
    pub(crate) path: Vec<Units>,
    pub(crate) content: Content,
}

/// A storage or a stream, by the number of these names and the last of them.
#[derive(Drop)]
pub(crate) struct Placed {
    pub(crate) level: usize,
    pub(crate) name: Units,
    pub(crate) content: Content,
}

impl Entry {
    /// The path of the innermost storage that is open behind it: itself, or the one that it is in.
    fn open_behind(&self) -> &[Units]
        ensures { result.now ≡ plain.open_behind (entry_of self.now) }
    {
        match self.content {
            Content::Storage(_) => &self.path,
            Content::Stream(_) => above(&self.path),
        }
    }

    /// What is kept of it once the entry behind it was read.
    pub(crate) fn placed(self, alloc: Global) -> Placed
        ensures { placed_of result ≡ shortened (entry_of self) }
    {
        let Entry { mut path, content } = self;
        let level = path.len();
        let name = path.pop().unwrap_or(Units::new(alloc));
        Placed {
            level,
            name,
            content,
        }
    }
}

/// The path of the storage that the member of a path is in.
fn above(path: &[Units]) -> &[Units]
    ensures { result.now ≡ take (length path.now - 1) path.now }
{
    &path[..path.len().saturating_sub(1)]
}

/// Whether a path comes before another, name by name in the order of siblings.
fn comes_before(one: &[Units], other: &[Units]) -> bool
    ensures { result ≡ is_lt (slice_cmp sibling_cmp one.now other.now) }
{
    for k in 0..one.len() {
        if k >= other.len() {
            return false;
        }
        match sibling_order(one[k].as_slice(), other[k].as_slice()) {
            Ordering::Less => return true,
            Ordering::Equal => {}
            Ordering::Greater => return false,
        }
    }
    one.len() < other.len()
}

/// Whether a path is another, or leads to it.
fn leads_to(one: &[Units], other: &[Units]) -> bool
    ensures { result ≡ plain.leads_to one.now other.now }
{
    if one.len() > other.len() {
        return false;
    }
    for k in 0..one.len() {
        if one[k].as_slice() != other[k].as_slice() {
            return false;
        }
    }
    true
}

/// Whether an entry may stand behind another.
fn follows(last: &Entry, entry: &Entry) -> bool
    ensures { result ≡ plain.follows (entry_of last.now) (entry_of entry.now) }
{
    comes_before(&last.path, &entry.path) && leads_to(above(&entry.path), last.open_behind())
}

/// Whether an entry may stand behind the last one, or as the first.
pub(crate) fn comes_next(last: Option<&Entry>, entry: &Entry) -> bool
    ensures { result ≡ plain.comes_next (map entry_of (option_to_list (option_copied last.entry))) (entry_of entry.now) }
{
    match last {
        Some(last) => follows(last, entry),
        None => entry.path.len() == 1,
    }
}
