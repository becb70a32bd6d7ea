//! What a store in an attachment keeps to.
ghost use Rattle.std.specs.Prelude.{◌≡◌, ◌<◌, ◌&&◌, IsTrue, ◌↔◌, length};
ghost use Rattle.carrier_model.specs.FileTrees as plain;
ghost use Rattle.carrier_model.specs.Lookups.{same_name};
ghost use Rattle.carrier_model.specs.Stores.{PROPERTIES as plain_properties, has_stream, IsStore};
ghost use Rattle.msg_tree.specs.Shapes.{FitsWithin, MemberFits, ItemFits, RisesAt, is_bytes};
ghost use Rattle.msg_tree.specs.StoreMeaning.{store_of, member_of};

use crate::stores::{Member, Store};
use carrier_io::Blob;
use cfb_names::{is_property_stream, sibling_order};
use std::cmp::Ordering;

/// The greatest number of units of a name.
const GREATEST_NAME: usize = 31;

/// The most storages that stand one below another.
const MOST_STORAGES: u64 = 32;

/// Whether a store keeps to what one in an attachment keeps to.
pub fn is_store<B: Blob>(store: &Store<B>) -> bool
    ensures { IsTrue result ↔ IsStore (store_of B.bytes store.now) }
{
    if !fits_within(store, MOST_STORAGES) {
        return false;
    }
    !has_properties(store)
}

// Whether a member is the stream that makes a storage a message.
fn has_properties<B: Blob>(store: &Store<B>) -> bool
    ensures { result ≡ has_stream (store_of B.bytes store.now).members plain_properties }
{
    for k in 0..store.len() {
        if is_list(store.name(k), store.member(k)) {
            return true;
        }
    }
    false
}

// Whether a member is that stream.
fn is_list<B: Blob>(name: &[u16], member: &Member<B>) -> bool
    ensures { result ≡ (is_bytes (member_of B.bytes member.now) && same_name name.now plain_properties) }
{
    match member {
        Member::Stream(_) => is_property_stream(name),
        Member::Storage(_) => false,
    }
}

/// Whether names are short and stand in the order of siblings, and at most so many storages one below another.
#[cycle(shape)]
fn fits_within<B: Blob>(store: &Store<B>, storages: u64) -> bool
    ensures { IsTrue result ↔ FitsWithin storages (store_of B.bytes store.now) }
{
    let _bytes = class_bytes(store.class());
    for k in 0..store.len() {
        if !item_fits(store, k, storages) {
            return false;
        }
    }
    true
}

#[cycle(shape)]
fn item_fits<B: Blob>(store: &Store<B>, k: usize, storages: u64) -> bool
    requires { k < length (plain.files_listed (store_of B.bytes store.now).members) }
    ensures { IsTrue result ↔ ItemFits storages (store_of B.bytes store.now).members k }
{
    if !is_name(store.name(k)) {
        return false;
    }
    if !rises_at(store, k) {
        return false;
    }
    member_fits(store.member(k), storages)
}

#[cycle(shape)]
fn member_fits<B: Blob>(member: &Member<B>, storages: u64) -> bool
    ensures { IsTrue result ↔ MemberFits storages (member_of B.bytes member.now) }
{
    match member {
        Member::Stream(_) => true,
        Member::Storage(inner) => {
            if storages == 0 {
                return false;
            }
            fits_within(inner, storages - 1)
        }
    }
}

// A class has 16 bytes.
fn class_bytes(class: [u8; 16]) -> usize
    ensures { length class ≡ 16 }
{
    class.len()
}

fn is_name(name: &[u16]) -> bool
    ensures { IsTrue result ↔ plain.IsFileName name.now }
{
    name.len() <= GREATEST_NAME
}

// Whether a name is above the one before it, if there is one.
fn rises_at<B: Blob>(store: &Store<B>, k: usize) -> bool
    requires { k < length (plain.files_listed (store_of B.bytes store.now).members) }
    ensures { IsTrue result ↔ RisesAt (plain.file_names (store_of B.bytes store.now).members) k }
{
    if k == 0 {
        return true;
    }
    match sibling_order(store.name(k - 1), store.name(k)) {
        Ordering::Less => true,
        Ordering::Equal => false,
        Ordering::Greater => false,
    }
}
