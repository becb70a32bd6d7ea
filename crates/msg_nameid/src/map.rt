//! Ids and the names for which they stand.
ghost use Rattle.std.specs.Prelude.{◌≡◌, ◌≤◌, length, Contains, IfOk, IfSome, Some};
ghost use Rattle.std.specs.Option.{option_map};
ghost use Rattle.carrier_model.specs.Keys as keys;
ghost use Rattle.msg_model.specs.NameMap.{name_for, pairs_from};
ghost use Rattle.prop_names.specs.Meaning.{name_of};
ghost use Rattle.msg_nameid.specs.Drafts.{IsWhole, pairs_in};

use crate::drafts::Draft;
use crate::order::{are_in_order, least_id, least_id_near};
use crate::slots::{Slot, Slots};
use carrier_io::NoMemory;
use prop_names::{Name, NameSet};
use std::alloc::Global;
use std::marker::Model;

/// An id and the name for which it stands.
#[derive(Drop)]
pub struct Entry {
    pub id: u16,
    pub name: Name,
}

/// Which names the ids from 8000 on stand for, in the order of the map's entries. [MS-OXMSG 2.2.3]
#[derive(Drop)]
pub struct NameMap {
    pub(crate) entries: Vec<Entry>,
    // What each property index has.
    slots: Slots,
    // Whether the entries are known to stand in the order of their names.
    is_in_order: bool,
}

impl Model for NameMap {
    ghost use Rattle.std.specs.Prelude.{List, map, All, IsTrue};
    ghost use Rattle.std.specs.List.Sorted.{IsSorted};
    ghost use Rattle.carrier_model.specs.Keys.{IsName};
    ghost use Rattle.msg_model.specs.NameMap.{Pair};
    ghost use Rattle.msg_nameid.specs.Maps.{pair_of, names_in};
    ghost use Rattle.msg_nameid.specs.Orders.{pair_cmp};
    ghost use Rattle.msg_nameid.specs.Tables.{IsTable};

    ghost Value = { List Pair };

    ghost view = { λ s. map pair_of s.entries.items };

    ghost invariant = { λ s. record {
      table : IsTable s.slots (map pair_of s.entries.items);
      names : All IsName (names_in (map pair_of s.entries.items));
      order : IsTrue s.is_in_order → IsSorted pair_cmp (map pair_of s.entries.items);
    } };
}

impl NameMap {
    ghost use Rattle.msg_nameid.specs.Maps.{IsAssigned, IsLeastId, names_in};

    /// The map that gives each name of a set its id: the k-th, from 0, has the id 8000 plus k. NoMemory says that
    /// memory ran out. [MS-OXMSG 2.2.3]
    pub fn assign(alloc: Global, names: &NameSet) -> Result<NameMap, NoMemory>
        requires few { length names.now ≤ 32000 }
        ensures pairs { IfOk result (λ m. m ≡ pairs_from 0 names.now) }
        ensures assigned { IfOk result IsAssigned }
    {
        let mut draft = Draft::new(alloc);
        for k in 0..names.len() {
            let name = names.get(k).copy(alloc)?;
            draft.add_name(k as u16, name)?;
        }
        Ok(NameMap::from_draft(draft))
    }

    /// The map of names that were gathered.
    pub(crate) fn from_draft(draft: Draft) -> NameMap
        requires { IsWhole draft }
        ensures { result ≡ pairs_in draft }
    {
        let Draft { entries, slots } = draft;
        let is_in_order = are_in_order(&entries);
        NameMap {
            entries,
            slots,
            is_in_order,
        }
    }

    /// The name for which an id stands; None where it stands for none.
    pub fn name_of(&self, id: u16) -> Option<&Name>
        ensures name { option_map (λ n. name_of n.now) result ≡ name_for self.now id }
        ensures short { IfSome result (λ n. keys.IsName (name_of n.now)) }
    {
        let slots = &self.slots;
        if id < 0x8000 {
            return None;
        }
        match slots.get(id - 0x8000) {
            Slot::Named(place) => Some(&self.entries[usize::from(place)].name),
            _ => None,
        }
    }

    /// The least id of a name; None where it has none. Where names have ids in their order, as in a map that was assigned,
    /// it is found at once if it was guessed, and sooner where the guess is near; else all entries are looked at.
    pub fn id_of(&self, name: &Name, guess: u16) -> Option<u16>
        ensures least { IsLeastId self.now (name_of name.now) result }
        ensures assigned { IsAssigned self.now → Contains (names_in self.now) (name_of name.now) → result ≡ Some (keys.id_of (names_in self.now) (name_of name.now)) }
    {
        if self.is_in_order {
            let place = usize::from(guess).saturating_sub(0x8000);
            least_id_near(&self.entries, name, place)
        } else {
            least_id(&self.entries, name)
        }
    }
}
