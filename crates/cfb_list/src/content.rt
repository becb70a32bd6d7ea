//! What is in a storage, as it was added.
ghost use Rattle.std.specs.Prelude.{◌≡◌, ◌<◌, length, IfOk};
ghost use Rattle.carrier_model.specs.FileTrees.{sibling_cmp};

use crate::few_bytes::FewBytes;
use crate::views::{ContentView, FileView, KindView, NameView, name_order};
use carrier_io::{Blob, NoMemory};
use std::alloc::Global;
use std::cmp::Ordering;

/// The bytes of a stream. [MS-CFB 2.6.1, 2.6.3]
#[derive(Drop)]
pub enum Content<'t, B: Blob> {
    /// Bytes of its own.
    Own(Vec<u8>),
    /// The bytes of a value, and so many zeros behind them.
    Value { bytes: &'t B, zeros: u8 },
}

/// The bytes of a stream as a list keeps them, in 16 bytes: most streams are small, and there may be millions of them.
#[derive(Drop)]
pub enum Kept<'t, B: Blob> {
    /// Few bytes of its own.
    Few(FewBytes),
    /// Bytes of its own.
    Own(Box<Vec<u8>>),
    /// The bytes of a value, and so many zeros behind them.
    Value { zeros: u8, bytes: &'t B },
}

/// The units of a name.
#[derive(Drop)]
pub enum Name<'t> {
    /// Units of its own.
    Own(Box<Vec<u16>>),
    /// A number, in eight upper-case hexadecimal digits, and the units in front of it, which stand elsewhere.
    Numbered { number: u32, front: &'t [u16] },
}

/// A stream; a row of values, each with so many zeros behind it, that become a stream each, named by a front and a number; or
/// a storage with its number and its class.
#[derive(Drop)]
pub enum File<'t, B: Blob> {
    Stream {
        name: Name<'t>,
        content: Kept<'t, B>,
    },
    Row {
        zeros: u8,
        front: Vec<u16>,
        list: &'t [B],
    },
    Storage {
        number: u32,
        name: Name<'t>,
        class: [u8; 16],
    },
}

/// Where a stream or a storage is found: at which place its file was added, and which of the file's it is.
#[derive(Clone, Copy)]
pub struct Place {
    pub file: u32,
    pub number: u32,
}

/// What is in a storage: the files as they were added, and the places of what they stand for in its order.
#[derive(Drop)]
pub struct SortedStorage<'t, B: Blob> {
    pub files: Vec<File<'t, B>>,
    pub places: Vec<Place>,
}

/// What is in a storage, in the order in which it was added.
#[derive(Drop)]
pub struct Storage<'t, B: Blob> {
    pub files: Vec<File<'t, B>>,
}

impl<'t, B: Blob> Kept<'t, B> {
    ghost use Rattle.cfb_list.specs.Contents.{bytes_seen, content_bytes, kept_bytes};

    /// A content as it is kept. NoMemory says that memory ran out.
    pub fn of_content(alloc: Global, content: Content<'t, B>) -> Result<Kept<'t, B>, NoMemory>
        ensures { IfOk result (λ kept. kept_bytes B.bytes kept ≡ content_bytes B.bytes content.entry) }
    {
        match content {
            Content::Own(bytes) => match FewBytes::of_slice(&bytes) {
                Some(few) => Ok(Kept::Few(few)),
                None => Ok(Kept::Own(Box::new(alloc, bytes)?)),
            },
            Content::Value { bytes, zeros } => Ok(Kept::Value { zeros, bytes }),
        }
    }

    /// The bytes, to be looked at.
    pub fn view(&self) -> ContentView<'_, B>
        ensures { bytes_seen B.bytes result ≡ kept_bytes B.bytes self.now }
    {
        match self {
            Kept::Few(few) => ContentView::Own(few.as_slice()),
            Kept::Own(bytes) => ContentView::Own(bytes.as_slice()),
            Kept::Value { zeros, bytes } => ContentView::Value {
                bytes,
                zeros: *zeros,
            },
        }
    }
}

impl<'t> Name<'t> {
    ghost use Rattle.cfb_list.specs.Contents.{name_seen, name_units};

    /// A name of these units. NoMemory says that memory ran out.
    pub fn of_units(alloc: Global, units: Vec<u16>) -> Result<Name<'t>, NoMemory>
        ensures { IfOk result (λ name. name_units name ≡ units.items) }
    {
        Ok(Name::Own(Box::new(alloc, units)?))
    }

    /// The name, to be looked at.
    pub fn view(&self) -> NameView<'_>
        ensures { name_seen result ≡ name_units self.now }
    {
        match self {
            Name::Own(units) => NameView::Whole(units.as_slice()),
            Name::Numbered { number, front } => NameView::Numbered {
                front,
                number: *number,
            },
        }
    }
}

impl<'t, B: Blob> File<'t, B> {
    ghost use Rattle.std.specs.Prelude.{Some, get_or, slice_get};
    ghost use Rattle.cfb_list.specs.Contents.{child_seen, file_children, file_seen, name_seen};
    ghost use Rattle.cfb_list.specs.Listed.{name_of, nothing};

    /// How many streams and storages it stands for.
    pub fn count(&self) -> usize
        ensures { result ≡ length (file_children B.bytes self.now) }
    {
        match self {
            File::Stream { .. } | File::Storage { .. } => 1,
            File::Row { list, .. } => list.len(),
        }
    }

    /// The one with this number among them, without its name.
    pub fn kind_at(&self, number: usize) -> KindView<'_, B>
        requires { number < length (file_children B.bytes self.now) }
        ensures { child_seen B.bytes (name_of (get_or (file_children B.bytes self.now) number nothing)) result ≡ get_or (file_children B.bytes self.now) number nothing }
    {
        match self {
            File::Stream { content, .. } => KindView::Stream(content.view()),
            File::Row { list, zeros, .. } => match list.get(number) {
                Some(bytes) => KindView::Stream(ContentView::Value {
                    bytes,
                    zeros: *zeros,
                }),
                None => unreachable!(),
            },
            File::Storage { class, number, .. } => KindView::Storage {
                class: *class,
                number: *number as usize,
            },
        }
    }

    /// The name of the one with this number; no units where there is none.
    pub fn name_at(&self, number: u32) -> NameView<'_>
        ensures { name_seen result ≡ name_of (get_or (file_children B.bytes self.now) number nothing) }
    {
        if number as usize >= self.count() {
            return NameView::Whole(&[]);
        }
        match self {
            File::Stream { name, .. } | File::Storage { name, .. } => name.view(),
            File::Row { front, .. } => NameView::Numbered { front, number },
        }
    }

    /// The order of two of them by their names. Those of a row are in the order of their numbers.
    pub fn order_of(&self, one: u32, other: u32) -> Ordering
        ensures { result ≡ sibling_cmp (name_of (get_or (file_children B.bytes self.now) one nothing)) (name_of (get_or (file_children B.bytes self.now) other nothing)) }
    {
        if let File::Row { list, .. } = self {
            if (one as usize) < list.len() && (other as usize) < list.len() {
                return one.cmp(&other);
            }
        }
        name_order(self.name_at(one), self.name_at(other))
    }

    /// The one with this number, with its name.
    pub fn view_at(&self, number: u32) -> FileView<'_, B>
        requires { number < length (file_children B.bytes self.now) }
        ensures { slice_get (file_children B.bytes self.now) number ≡ Some (file_seen B.bytes result) }
    {
        FileView {
            name: self.name_at(number),
            kind: self.kind_at(number as usize),
        }
    }
}
