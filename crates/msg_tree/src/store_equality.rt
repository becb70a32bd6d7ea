//! Equality of stores over two kinds of blobs.
ghost use Rattle.std.specs.Prelude.{◌≡◌, IsTrue, ◌↔◌};
ghost use Rattle.msg_tree.specs.StoreMeaning.{store_of, member_of};

use crate::stores::{Member, Store};
use carrier_io::{Blob, same_bytes};

/// Whether two stores are equal as plain stores.
#[cycle(same_stores)]
pub fn same_store<B: Blob, C: Blob>(one: &Store<B>, other: &Store<C>) -> bool
    ensures { IsTrue result ↔ (store_of B.bytes one.now ≡ store_of C.bytes other.now) }
{
    if one.class() != other.class() {
        return false;
    }
    if one.len() != other.len() {
        return false;
    }
    for k in 0..one.len() {
        if one.name(k) != other.name(k) {
            return false;
        }
        if !same_member(one.member(k), other.member(k)) {
            return false;
        }
    }
    true
}

#[cycle(same_stores)]
fn same_member<B: Blob, C: Blob>(one: &Member<B>, other: &Member<C>) -> bool
    ensures { IsTrue result ↔ (member_of B.bytes one.now ≡ member_of C.bytes other.now) }
{
    match one {
        Member::Stream(bytes) => match other {
            Member::Stream(bytes_two) => same_bytes(bytes, bytes_two),
            Member::Storage(_) => false,
        },
        Member::Storage(store) => match other {
            Member::Stream(_) => false,
            Member::Storage(store_two) => same_store(store, store_two),
        },
    }
}
