//! The store that a storage of a compound file is. [MS-CFB 1.3, MS-OXMSG 2.2.2]
ghost use Rattle.std.specs.Prelude.{◌≡◌, IfOk, IfSome, IsSome, Some, Ok, Err, slice_get};
ghost use Rattle.carrier_io.specs.Reads.{Gives, Reads};
ghost use Rattle.carrier_model.specs.Stores.{store_in, StoreMeans};
ghost use Rattle.carrier_model.specs.Streams.{Stream};
ghost use Rattle.cfb_directory.specs.Found.{IsThere, storage_seen, child_seen, children_list, child_stream};
ghost use Rattle.cfb_sectors.specs.Seen.{bytes_of, stream as stream_seen};
ghost use Rattle.msg_tree.specs.Gathering.{gathered};
ghost use Rattle.msg_tree.specs.StoreMeaning.{store_of, member_of};
ghost use Rattle.ole_stores.specs.Levels.{store_within, store_below, members_within, member_at};

use carrier_io::{Fault, NoMemory, Reason, Stop};
use cfb_directory::{Child, Files, StorageId};
use cfb_sectors::StreamView;
use cfb_sectors::fields::OBJECT_TYPE;
use msg_tree::{Member, Members, Store};
use std::alloc::Global;

/// The most storages that stand one below another in a store.
const MOST_STORAGES: u32 = 32;

/// The store of a storage. StoreTooDeep at the type in the directory entry of the first storage that stands 33 levels
/// below, a storage before what is below it, siblings in their order. Streams stay in the input, and members are sorted
/// once. [MS-OXMSG 2.2.2]
pub fn read_store<'a>(
    alloc: Global,
    files: &Files<'a>,
    at: StorageId,
) -> Result<Store<StreamView<'a>>, Stop>
    requires { IsThere files.now at }
    ensures answer { Gives (store_of bytes_of) result (store_in (storage_seen files.now at)) }
    ensures both { Reads (store_of bytes_of) result (StoreMeans (storage_seen files.now at)) (λ g. store_in (storage_seen files.now at) ≡ Err g) }
{
    read_within(alloc, files, at, MOST_STORAGES)
}

/// The store of a storage, where so many storages may stand one below another.
#[cycle(stores)]
fn read_within<'a>(
    alloc: Global,
    files: &Files<'a>,
    at: StorageId,
    most: u32,
) -> Result<Store<StreamView<'a>>, Stop>
    requires { IsThere files.now at }
    ensures { Gives (store_of bytes_of) result (store_within most (storage_seen files.now at)) }
{
    let members = read_members(alloc, files, at, most)?;
    Ok(members.into_store(files.class(at))?)
}

/// What is in a storage, in the file's order.
#[cycle(stores)]
fn read_members<'a>(
    alloc: Global,
    files: &Files<'a>,
    at: StorageId,
    most: u32,
) -> Result<Members<StreamView<'a>>, Stop>
    requires { IsThere files.now at }
    ensures { Gives (gathered bytes_of) result (members_within most (storage_seen files.now at).children) }
{
    let mut members = Members::new(alloc);
    while let Some(child) = files.child(at, members.len()) {
        let member = read_member(alloc, files, at, members.len(), child, most)?;
        members.push(child.units, member)?;
    }
    Ok(members)
}

/// The child of a storage at a place.
#[cycle(stores)]
fn read_member<'a>(
    alloc: Global,
    files: &Files<'a>,
    at: StorageId,
    k: usize,
    child: Child<'_>,
    most: u32,
) -> Result<Member<StreamView<'a>>, Stop>
    requires there { IsThere files.now at }
    requires child { slice_get (children_list (storage_seen files.now at).children) k ≡ Some (child_seen files.now child) }
    requires inner { IfSome child.storage (IsThere files.now) }
    ensures { Gives (member_of bytes_of) result (member_at most (storage_seen files.now at).children k) }
{
    match child.storage {
        Some(inner) => Ok(Member::Storage(read_below(alloc, files, inner, most)?)),
        None => Ok(Member::Stream(read_stream(files, at, k)?)),
    }
}

/// The store of a storage in another, in which so many storages may stand one below another.
#[cycle(stores)]
fn read_below<'a>(
    alloc: Global,
    files: &Files<'a>,
    at: StorageId,
    most: u32,
) -> Result<Store<StreamView<'a>>, Stop>
    requires { IsThere files.now at }
    ensures { Gives (store_of bytes_of) result (store_below most (storage_seen files.now at)) }
{
    if most == 0 {
        return Err(Stop::Fault(Fault {
            reason: Reason::StoreTooDeep,
            offset: files.storage_offset(at) + OBJECT_TYPE as u64,
        }));
    }
    read_within(alloc, files, at, most - 1)
}

/// The stream of a storage at a place.
fn read_stream<'a>(files: &Files<'a>, at: StorageId, k: usize) -> Result<StreamView<'a>, NoMemory>
    requires there { IsThere files.now at }
    requires stream { IsSome (child_stream (storage_seen files.now at).children k) }
    ensures { IfOk result (λ view. child_stream (storage_seen files.now at).children k ≡ Some (stream_seen view)) }
{
    match files.child_stream(at, k) {
        Some(view) => Ok(view.copy()?),
        None => unreachable!(),
    }
}
