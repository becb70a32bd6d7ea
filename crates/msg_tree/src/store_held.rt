//! Stores over blobs that hold others.
ghost use Rattle.std.specs.Prelude.{◌≡◌, IfOk, map};
ghost use Rattle.msg_tree.specs.StoreMeaning.{store_of, entry_of, member_of};

use crate::stores::{Entry, Member, Store};
use carrier_io::{Blob, Holds, NoMemory};
use std::alloc::Global;

/// The same store over blobs that its own become. NoMemory says that memory ran out.
#[cycle(held_stores)]
pub fn held_store<B: Blob, C: Holds<B>>(store: Store<B>) -> Result<Store<C>, NoMemory>
    ensures { IfOk result (λ r. store_of C.bytes r ≡ store_of B.bytes store) }
{
    let Store { class, entries } = store;
    Ok(Store::of_entries(class, held_entries(entries)?))
}

#[cycle(held_stores)]
fn held_entries<B: Blob, C: Holds<B>>(entries: Vec<Entry<B>>) -> Result<Vec<Entry<C>>, NoMemory>
    ensures { IfOk result (λ r. map (entry_of C.bytes) r.items ≡ map (entry_of B.bytes) entries.items) }
{
    let alloc = *entries.allocator();
    let mut all = Vec::with_capacity(alloc, entries.len())?;
    for entry in entries {
        let Entry { name, member } = entry;
        let member = held_member(alloc, member)?;
        all.push(Entry { name, member })?;
    }
    Ok(all)
}

#[cycle(held_stores)]
fn held_member<B: Blob, C: Holds<B>>(
    alloc: Global,
    member: Member<B>,
) -> Result<Member<C>, NoMemory>
    ensures { IfOk result (λ r. member_of C.bytes r ≡ member_of B.bytes member) }
{
    match member {
        Member::Stream(blob) => Ok(Member::Stream(C::holding(alloc, blob)?)),
        Member::Storage(store) => Ok(Member::Storage(held_store(store)?)),
    }
}
