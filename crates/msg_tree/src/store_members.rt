//! Members of a store that come in any order.
ghost use Rattle.std.specs.Prelude.{◌≡◌, ◌∷◌, ◌++◌, [], length, map, OnOk, OnErr, IfOk};
ghost use Rattle.carrier_model.specs.FileTrees.{files_from, sibling_cmp};
ghost use Rattle.msg_tree.specs.Gathering.{gathered, in_order};
ghost use Rattle.msg_tree.specs.StoreMeaning.{store_of, entry_of, member_of};

use crate::stores::{Entry, Member, Store};
use carrier_io::{Blob, NoMemory};
use cfb_names::sibling_order;
use std::alloc::Global;
use std::cmp::Ordering;

/// Members of a store in the order in which they come. They are put in order all at once.
#[derive(Drop)]
pub struct Members<B: Blob> {
    entries: Vec<Entry<B>>,
}

impl<B: Blob> Members<B> {
    /// No member.
    pub fn new(alloc: Global) -> Members<B>
        ensures { gathered B.bytes result ≡ [] }
    {
        Members {
            entries: Vec::new(alloc),
        }
    }

    /// How many members.
    pub fn len(&self) -> usize
        ensures { result ≡ length (gathered B.bytes self.now) }
    {
        self.entries.len()
    }

    /// Puts a member behind the others, whatever its name. The list is unchanged where memory is refused.
    pub fn push(&mut self, name: &[u16], member: Member<B>) -> Result<(), NoMemory>
        ensures ok { OnOk result (gathered B.bytes self.new ≡ gathered B.bytes self.old ++ (name.now, member_of B.bytes member) ∷ []) }
        ensures err { OnErr result (gathered B.bytes self.new ≡ gathered B.bytes self.old) }
    {
        let name = name.to_vec(*self.entries.allocator())?;
        self.entries.push(Entry { name, member })?;
        Ok(())
    }

    /// The store of them, in the order of siblings. Members whose names tie stay as they came. NoMemory says that
    /// memory ran out. [MS-CFB 2.6.4]
    pub fn into_store(self, class: [u8; 16]) -> Result<Store<B>, NoMemory>
        ensures { IfOk result (λ s. store_of B.bytes s ≡ record { class = class; members = in_order (gathered B.bytes self) }) }
    {
        let Members { mut entries } = self;
        sort_entries(&mut entries)?;
        Ok(Store::of_entries(class, entries))
    }
}

// Puts entries into the order of siblings, all at once.
fn sort_entries<B: Blob>(entries: &mut Vec<Entry<B>>) -> Result<(), NoMemory>
    ensures { OnOk result (files_from (map (entry_of B.bytes) entries.new.items) ≡ in_order (map (entry_of B.bytes) entries.old.items)) }
{
    entries.sort_by(
        |one: &Entry<B>, other: &Entry<B>| -> Ordering
            ensures { result ≡ sibling_cmp (entry_of B.bytes one.now).0 (entry_of B.bytes other.now).0 }
        { sibling_order(&one.name, &other.name) },
    )?;
    Ok(())
}
