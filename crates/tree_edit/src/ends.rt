//! Why edits can't be done.
ghost use Rattle.std.specs.Prelude.{◌≡◌};
ghost use Rattle.tree_edit.specs.declared.ends.EditEnd.TheVariants as ends;
ghost use Rattle.tree_edit.specs.declared.ends.OnceEnd.TheVariants as once;

use carrier_io::NoMemory;

/// Why an edit can't be done.
#[derive(Clone, Copy, Debug, PartialEq, Eq)]
pub enum EditWhy {
    /// Its message, recipient or attachment isn't there.
    NoPlace,
    /// Its property isn't there.
    NoProperty,
}

/// The first edit that can't be done.
#[derive(Clone, Copy, Debug, PartialEq, Eq)]
pub struct EditFault {
    /// Its number, from 0.
    pub edit: u64,
    /// Why not.
    pub why: EditWhy,
}

/// Why there is no edited tree.
#[derive(Clone, Copy, Debug, PartialEq, Eq)]
pub enum EditEnd {
    /// An edit can't be done.
    Fault(EditFault),
    /// Memory was refused.
    NoMemory,
}

impl From<NoMemory> for EditEnd {
    ghost from_gives = { λ _ e. e ≡ ends.NoMemory };

    fn from(_: NoMemory) -> EditEnd {
        EditEnd::NoMemory
    }
}

/// Why an edit wasn't done.
#[derive(Clone, Copy, Debug, PartialEq, Eq)]
pub enum OnceEnd {
    /// It can't be done.
    Cannot(EditWhy),
    /// Memory was refused.
    NoMemory,
}

impl From<NoMemory> for OnceEnd {
    ghost from_gives = { λ _ e. e ≡ once.NoMemory };

    fn from(_: NoMemory) -> OnceEnd {
        OnceEnd::NoMemory
    }
}
