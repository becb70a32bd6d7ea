//! How a conversion may end without a result.
ghost use Rattle.std.specs.Prelude.{◌≡◌};
ghost use Rattle.tree_text8.specs.Ends.{in_element, of_property};

use carrier_io::NoMemory;
use std::alloc::{AllocError, AllocFailed};

/// Why a text isn't mapped.
#[derive(Clone, Copy, Debug, PartialEq, Eq)]
pub enum Why {
    /// Its page is none of the four.
    Page,
    /// A byte begins no sequence of its page.
    Byte,
}

/// The first text that isn't mapped.
#[derive(Clone, Copy, Debug, PartialEq, Eq)]
pub struct Unmapped {
    /// The page, or a byte.
    pub why: Why,
    /// The number of the property, counted from 0 over all properties in the order in which they are shown. It stays at
    /// the greatest `u64` where the true one is larger.
    pub property: u64,
    /// The number of the element, counted from 0, and 0 for a single value.
    pub element: u64,
    /// The place of the byte in the element, counted from 0, and 0 for a page.
    pub at: u64,
    /// The number of the page.
    pub page: u32,
}

/// How the conversion of a tree may end without one.
#[derive(Clone, Copy, Debug, PartialEq, Eq)]
pub enum TextEnd {
    /// A text isn't mapped.
    Unmapped(Unmapped),
    /// Memory was refused.
    NoMemory,
}

impl From<NoMemory> for TextEnd {
    ghost use Rattle.tree_text8.specs.declared.ends.TextEnd.TheVariants.{NoMemory as Wanting};
    ghost use Rattle.std.specs.Prelude.{◌≡◌};

    ghost from_gives = { λ _ e. e ≡ Wanting };

    fn from(_: NoMemory) -> TextEnd {
        TextEnd::NoMemory
    }
}

impl<T: Drop> From<AllocFailed<T>> for TextEnd {
    ghost use Rattle.tree_text8.specs.declared.ends.TextEnd.TheVariants.{NoMemory as Wanting};
    ghost use Rattle.std.specs.Prelude.{◌≡◌};

    ghost from_gives = { λ _ e. e ≡ Wanting };

    fn from(_: AllocFailed<T>) -> TextEnd {
        TextEnd::NoMemory
    }
}

/// How the conversion of a value may end without one.
#[derive(Clone, Copy, Debug, PartialEq, Eq)]
pub(crate) enum PartEnd {
    /// A byte begins no sequence: the number of the element, and the place of the byte in it.
    Bad { element: usize, at: usize },
    /// Memory was refused.
    NoMemory,
}

impl PartEnd {
    /// The same of the element with a number.
    pub(crate) fn in_element(self, k: usize) -> PartEnd
        ensures { result ≡ in_element self k }
    {
        match self {
            PartEnd::Bad { at, .. } => PartEnd::Bad { element: k, at },
            PartEnd::NoMemory => PartEnd::NoMemory,
        }
    }

    /// What is told of it where the value is that of a property with a number, in a page with a number.
    pub(crate) fn of_property(self, page: u32, property: u64) -> TextEnd
        ensures { result ≡ of_property self page property }
    {
        match self {
            PartEnd::Bad { element, at } => TextEnd::Unmapped(Unmapped {
                why: Why::Byte,
                property,
                element: element as u64,
                at: at as u64,
                page,
            }),
            PartEnd::NoMemory => TextEnd::NoMemory,
        }
    }
}

impl From<NoMemory> for PartEnd {
    ghost use Rattle.tree_text8.specs.declared.ends.PartEnd.TheVariants.{NoMemory as Wanting};
    ghost use Rattle.std.specs.Prelude.{◌≡◌};

    ghost from_gives = { λ _ e. e ≡ Wanting };

    fn from(_: NoMemory) -> PartEnd {
        PartEnd::NoMemory
    }
}

impl From<AllocError> for PartEnd {
    ghost use Rattle.tree_text8.specs.declared.ends.PartEnd.TheVariants.{NoMemory as Wanting};
    ghost use Rattle.std.specs.Prelude.{◌≡◌};

    ghost from_gives = { λ _ e. e ≡ Wanting };

    fn from(_: AllocError) -> PartEnd {
        PartEnd::NoMemory
    }
}
