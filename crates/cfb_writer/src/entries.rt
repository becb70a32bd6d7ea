//! The entries of a directory.
ghost use Rattle.std.specs.Prelude.{◌≡◌, ◌<◌, length, Some, All, slice_get};

use crate::placing::Place;
use carrier_io::Blob;
use cfb_list::{FileView, SortedList};
use std::marker::Model;

/// An entry: its file and its links.
#[derive(Drop)]
pub struct Entry<'e, B: Blob> {
    pub file: FileView<'e, B>,
    pub left: u32,
    pub right: u32,
    pub child: u32,
}

/// The root, and all other entries in the order of their numbers.
#[derive(Drop)]
pub struct Entries<'t, B: Blob> {
    root_class: [u8; 16],
    list: SortedList<'t, B>,
    top: u32,
    places: Vec<Place>,
}

impl<'t, B: Blob> Model for Entries<'t, B> {
    ghost use Rattle.std.specs.Prelude.{All};
    ghost use Rattle.cfb_writer.specs.Laid.{Laid};
    ghost use Rattle.cfb_writer.specs.Placed.{IsPlace, slots_at};

    ghost Value = { Laid };

    ghost view = { λ s. record { root_class = s.root_class; top = s.top; others = slots_at s.list s.places.items } };

    ghost invariant = { λ s. All (IsPlace s.list) s.places.items };
}

impl<'t, B: Blob> Entries<'t, B> {
    ghost use Rattle.cfb_writer.specs.Entered.{slot_seen};
    ghost use Rattle.cfb_writer.specs.Placed.{IsPlace, slots_at};

    /// The entries of a list's files, which stand at these places.
    pub fn new(
        root_class: [u8; 16],
        list: SortedList<'t, B>,
        top: u32,
        places: Vec<Place>,
    ) -> Entries<'t, B>
        requires { All (IsPlace list) places.items }
        ensures { result ≡ record { root_class = root_class; top = top; others = slots_at list.entry places.items } }
    {
        Entries {
            root_class,
            list,
            top,
            places,
        }
    }

    /// How many entries there are beside the root.
    pub fn len(&self) -> usize
        ensures { result ≡ length self.now.others }
    {
        self.places.len()
    }

    /// The child link of the root.
    pub fn top(&self) -> u32
        ensures { result ≡ self.now.top }
    {
        self.top
    }

    /// The class of the root.
    pub fn root_class(&self) -> [u8; 16]
        ensures { result ≡ self.now.root_class }
    {
        self.root_class
    }

    /// The entry at a place behind the root.
    pub fn entry(&self, k: usize) -> Entry<'_, B>
        requires { k < length self.now.others }
        ensures { slice_get self.now.others k ≡ Some (slot_seen B.bytes result) }
    {
        let place = self.places[k];
        Entry {
            file: self.list.file(place.storage as usize, place.file as usize),
            left: place.left,
            right: place.right,
            child: place.child,
        }
    }
}
