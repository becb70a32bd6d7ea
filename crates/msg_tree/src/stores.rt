//! Stores in stores.
ghost use Rattle.std.specs.Prelude.{◌≡◌, ◌<◌, ◌≤◌, ◌++◌, ◌∷◌, [], length, map, slice_get, OnOk, OnErr, IfOk, IfErr, IfSome};
ghost use Rattle.std.specs.List.{insert as insert_at};
ghost use Rattle.carrier_model.specs.FileTrees as plain;
ghost use Rattle.carrier_model.specs.Places.{IsGap, IsPlace};
ghost use Rattle.carrier_model.specs.Stores.{AreInOrder};
ghost use Rattle.msg_tree.specs.Inserting.{HasName, IsMemberRefusal};
ghost use Rattle.msg_tree.specs.StoreMeaning.{store_of, entry_of, member_of};

use carrier_io::{Blob, NoMemory};
use cfb_names::sibling_order;
use std::alloc::Global;
use std::cmp::Ordering;

/// An OLE store: a class, and members by their names. [MS-CFB 1.3]
#[derive(Drop)]
#[cycle(store)]
pub struct Store<B: Blob> {
    pub(crate) class: [u8; 16],
    pub(crate) entries: Vec<Entry<B>>,
}

/// A member of a store under its name.
#[derive(Drop)]
#[cycle(store)]
pub(crate) struct Entry<B: Blob> {
    pub(crate) name: Vec<u16>,
    pub(crate) member: Member<B>,
}

/// What stands under a name in a store.
#[derive(Drop)]
#[cycle(store)]
pub enum Member<B: Blob> {
    /// The bytes of a stream.
    Stream(B),
    /// A storage.
    Storage(Store<B>),
}

/// How an insertion into a store may end.
#[derive(Drop)]
pub enum MemberEnd<B: Blob> {
    /// A member has the name, ASCII letters in one case. The new one is handed back.
    Duplicate(Member<B>),
    /// Memory was refused.
    NoMemory,
}

impl<B: Blob> Store<B> {
    /// A store without members.
    pub fn new(alloc: Global, class: [u8; 16]) -> Store<B>
        ensures empty { store_of B.bytes result ≡ record { class = class; members = plain.no_file } }
        ensures order { AreInOrder (store_of B.bytes result).members }
    {
        Store {
            class,
            entries: Vec::new(alloc),
        }
    }

    // The store of entries as they stand.
    pub(crate) fn of_entries(class: [u8; 16], entries: Vec<Entry<B>>) -> Store<B>
        ensures { store_of B.bytes result ≡ record { class = class; members = plain.files_from (map (entry_of B.bytes) entries.items) } }
    {
        Store { class, entries }
    }

    /// The class.
    pub fn class(&self) -> [u8; 16]
        ensures { result ≡ (store_of B.bytes self.now).class }
    {
        self.class
    }

    /// How many members.
    pub fn len(&self) -> usize
        ensures { result ≡ length (plain.files_listed (store_of B.bytes self.now).members) }
    {
        self.entries.len()
    }

    /// The name of a member, counted from 0.
    pub fn name(&self, k: usize) -> &[u16]
        requires { k < length (plain.files_listed (store_of B.bytes self.now).members) }
        ensures { IfSome (slice_get (plain.files_listed (store_of B.bytes self.now).members) k) (λ e. e.0 ≡ result.now) }
    {
        self.entries[k].name.as_slice()
    }

    /// A member, counted from 0.
    pub fn member(&self, k: usize) -> &Member<B>
        requires { k < length (plain.files_listed (store_of B.bytes self.now).members) }
        ensures { IfSome (slice_get (plain.files_listed (store_of B.bytes self.now).members) k) (λ e. e.1 ≡ member_of B.bytes result.now) }
    {
        &self.entries[k].member
    }

    /// Puts a member behind the others, whatever its name. The store is unchanged where memory is refused.
    pub(crate) fn push(&mut self, name: &[u16], member: Member<B>) -> Result<(), NoMemory>
        ensures { OnOk result (store_of B.bytes self.new ≡ record { class = (store_of B.bytes self.old).class; members = plain.files_from (plain.files_listed (store_of B.bytes self.old).members ++ (name.now, member_of B.bytes member) ∷ []) }) }
    {
        let name = name.to_vec(*self.entries.allocator())?;
        self.entries.push(Entry { name, member })?;
        Ok(())
    }

    /// Puts a member into its place by the order of siblings. The store is unchanged after a refusal.
    pub fn insert(&mut self, name: &[u16], member: Member<B>) -> Result<(), MemberEnd<B>>
        requires short { length name.now ≤ 31 }
        requires order { AreInOrder (store_of B.bytes self.old).members }
        ensures new { OnOk result (HasName (store_of B.bytes self.old).members name.now → ⊥) }
        ensures ok { OnOk result (store_of B.bytes self.new ≡ record { class = (store_of B.bytes self.old).class; members = plain.with_member name.now (member_of B.bytes member) (store_of B.bytes self.old).members }) }
        ensures refused { IfErr result (IsMemberRefusal (store_of B.bytes self.old).members name.now member) }
        ensures err { OnErr result (store_of B.bytes self.new ≡ store_of B.bytes self.old) }
        ensures order { AreInOrder (store_of B.bytes self.new).members }
    {
        match self.place_of(name) {
            Ok(_) => Err(MemberEnd::Duplicate(member)),
            Err(at) => match self.put(at, name, member) {
                Ok(()) => Ok(()),
                Err(_) => Err(MemberEnd::NoMemory),
            },
        }
    }

    // Where a name is, or would go.
    fn place_of(&self, name: &[u16]) -> Result<usize, usize>
        requires { AreInOrder (store_of B.bytes self.now).members }
        ensures found { IfOk result (IsPlace plain.sibling_cmp (plain.file_names (store_of B.bytes self.now).members) name.now) }
        ensures absent { IfErr result (IsGap plain.sibling_cmp (plain.file_names (store_of B.bytes self.now).members) name.now) }
    {
        for k in 0..self.len() {
            match sibling_order(self.name(k), name) {
                Ordering::Less => {}
                Ordering::Equal => return Ok(k),
                Ordering::Greater => return Err(k),
            }
        }
        Err(self.len())
    }

    // Puts a member at a place. The store is unchanged where memory is refused.
    fn put(&mut self, at: usize, name: &[u16], member: Member<B>) -> Result<(), NoMemory>
        requires { at ≤ length (plain.files_listed (store_of B.bytes self.old).members) }
        ensures ok { OnOk result (store_of B.bytes self.new ≡ record { class = (store_of B.bytes self.old).class; members = plain.files_from (insert_at (plain.files_listed (store_of B.bytes self.old).members) at (name.now, member_of B.bytes member)) }) }
        ensures err { OnErr result (store_of B.bytes self.new ≡ store_of B.bytes self.old) }
    {
        let name = name.to_vec(*self.entries.allocator())?;
        self.entries.insert(at, Entry { name, member })?;
        Ok(())
    }
}
