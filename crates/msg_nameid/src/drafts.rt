//! A map whose entries are still gathered.
ghost use Rattle.std.specs.Prelude.{◌≡◌, ◌+◌, ◌<◌, ◌∷◌, ◌++◌, ◌||◌, ℕ, [], false, nat_eq, OnOk};
ghost use Rattle.carrier_model.specs.Keys.{IsName};
ghost use Rattle.prop_names.specs.Meaning.{name_of};
ghost use Rattle.msg_nameid.specs.Drafts.{pairs_in, IsWhole, IsDraftOf};
ghost use Rattle.msg_nameid.specs.Tables.{slot_at, is_taken};

use crate::map::Entry;
use crate::slots::{Slot, Slots};
use carrier_io::NoMemory;
use prop_names::Name;
use std::alloc::Global;

/// The ids that stand for names so far, in order, and what each property index has.
#[derive(Drop)]
pub struct Draft {
    pub entries: Vec<Entry>,
    pub slots: Slots,
}

impl Draft {
    /// No names.
    pub fn new(alloc: Global) -> Draft
        ensures whole { IsWhole result }
        ensures none { IsDraftOf result [] }
    {
        Draft {
            entries: Vec::new(alloc),
            slots: Slots::new(alloc),
        }
    }

    /// Whether an entry had this index.
    pub fn has(&self, index: u16) -> bool
        ensures { result ≡ is_taken (slot_at self.now.slots index) }
    {
        match self.slots.get(index) {
            Slot::Free => false,
            _ => true,
        }
    }

    /// Adds a name, whose id is that of an index that no entry had. After NoMemory the draft may be broken.
    pub fn add_name(&mut self, index: u16, name: Name) -> Result<(), NoMemory>
        requires whole { IsWhole self.old }
        requires low { index < 0x8000 }
        requires free { is_taken (slot_at self.old.slots index) ≡ false }
        requires name { IsName (name_of name) }
        ensures whole { OnOk result (IsWhole self.new) }
        ensures pairs { OnOk result (pairs_in self.new ≡ pairs_in self.old ++ (0x8000 + index, name_of name) ∷ []) }
        ensures taken { OnOk result ((k : ℕ) → is_taken (slot_at self.new.slots k) ≡ (nat_eq k index || is_taken (slot_at self.old.slots k))) }
    {
        let place = self.entries.len() as u16;
        self.slots.take(index, Slot::Named(place))?;
        self.entries.push(Entry {
            id: 0x8000 + index,
            name,
        })?;
        Ok(())
    }

    /// Notes an index that no entry had, and whose entry has no name. After NoMemory the draft may be broken.
    pub fn add_nameless(&mut self, index: u16) -> Result<(), NoMemory>
        requires whole { IsWhole self.old }
        requires low { index < 0x8000 }
        requires free { is_taken (slot_at self.old.slots index) ≡ false }
        ensures whole { OnOk result (IsWhole self.new) }
        ensures pairs { OnOk result (pairs_in self.new ≡ pairs_in self.old) }
        ensures taken { OnOk result ((k : ℕ) → is_taken (slot_at self.new.slots k) ≡ (nat_eq k index || is_taken (slot_at self.old.slots k))) }
    {
        self.slots.take(index, Slot::Nameless)
    }
}
