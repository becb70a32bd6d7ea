//! Which entry each property index has.
ghost use Rattle.std.specs.Prelude.{◌≡◌, ◌+◌, ◌<◌, ◌≤◌, ℕ, [], true, length, nat_eq, if◌then◌else◌, OnOk};
ghost use Rattle.msg_nameid.specs.Tables.{slot_at, is_taken, count_taken};

use carrier_io::NoMemory;
use std::alloc::Global;
use std::marker::Model;

/// What an index has: nothing, an entry of the property set 0, or a name, whose pair stands at a place.
#[derive(Clone, Copy)]
pub enum Slot {
    Free,
    Nameless,
    Named(u16),
}

/// The slots of the indexes from 0 on; those behind the last are free.
#[derive(Drop)]
pub struct Slots {
    list: Vec<Slot>,
}

impl Model for Slots {
    ghost use Rattle.std.specs.Prelude.{List};
    ghost use Rattle.msg_nameid.specs.declared.slots.Slot.{Slot as PlainSlot};

    ghost Value = { List PlainSlot };

    ghost view = { λ s. s.list.items };
}

impl Slots {
    /// All are free.
    pub fn new(alloc: Global) -> Slots
        ensures { result ≡ [] }
    {
        Slots {
            list: Vec::new(alloc),
        }
    }

    /// The slot of an index.
    pub fn get(&self, index: u16) -> Slot
        ensures { result ≡ slot_at self.now index }
    {
        match self.list.get(usize::from(index)) {
            Some(slot) => *slot,
            None => Slot::Free,
        }
    }

    /// Makes room for the slot of an index.
    fn reach(&mut self, index: u16) -> Result<(), NoMemory>
        requires low { index < 0x8000 }
        requires few { length self.old ≤ 0x8000 }
        ensures same { OnOk result ((k : ℕ) → slot_at self.new k ≡ slot_at self.old k) }
        ensures count { OnOk result (count_taken self.new ≡ count_taken self.old) }
        ensures there { OnOk result (index < length self.new) }
        ensures few { length self.new ≤ 0x8000 }
    {
        let count = usize::from(index) + 1;
        if self.list.len() < count {
            self.list.resize(count, Slot::Free)?;
        }
        Ok(())
    }

    /// Takes the free slot of an index.
    pub fn take(&mut self, index: u16, slot: Slot) -> Result<(), NoMemory>
        requires low { index < 0x8000 }
        requires few { length self.old ≤ 0x8000 }
        requires free { slot_at self.old index ≡ Slot.Free }
        requires taken { is_taken slot ≡ true }
        ensures slots { OnOk result ((k : ℕ) → slot_at self.new k ≡ (if nat_eq k index then slot else slot_at self.old k)) }
        ensures count { OnOk result (count_taken self.new ≡ count_taken self.old + 1) }
        ensures few { length self.new ≤ 0x8000 }
    {
        self.reach(index)?;
        self.list[usize::from(index)] = slot;
        Ok(())
    }
}
