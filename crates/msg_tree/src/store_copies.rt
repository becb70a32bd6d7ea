//! Owned copies of stores.
ghost use Rattle.std.specs.Prelude.{◌≡◌, IfOk};
ghost use Rattle.msg_tree.specs.StoreMeaning.{store_of, member_of};

use crate::stores::{Member, Store};
use carrier_io::{Blob, NoMemory, copy_bytes};
use std::alloc::Global;

/// The same store over owned bytes. NoMemory says that memory ran out.
#[cycle(copy_stores)]
pub fn copy_store<B: Blob>(alloc: Global, store: &Store<B>) -> Result<Store<Vec<u8>>, NoMemory>
    ensures { IfOk result (λ r. store_of (λ v. v.items) r ≡ store_of B.bytes store.now) }
{
    let mut all = Store::new(alloc, store.class());
    for k in 0..store.len() {
        let copy = copy_member(alloc, store.member(k))?;
        all.push(store.name(k), copy)?;
    }
    Ok(all)
}

#[cycle(copy_stores)]
fn copy_member<B: Blob>(alloc: Global, member: &Member<B>) -> Result<Member<Vec<u8>>, NoMemory>
    ensures { IfOk result (λ r. member_of (λ v. v.items) r ≡ member_of B.bytes member.now) }
{
    match member {
        Member::Stream(bytes) => Ok(Member::Stream(copy_bytes(alloc, bytes)?)),
        Member::Storage(store) => Ok(Member::Storage(copy_store(alloc, store)?)),
    }
}
