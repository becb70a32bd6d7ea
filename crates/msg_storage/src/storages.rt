//! The storages of recipients and attachments.
ghost use Rattle.std.specs.Prelude.{◌≡◌, ◌++◌, All, IfOk, IfSome, OnOk, map, option_to_list};
ghost use Rattle.std.specs.Option.{option_map};
ghost use Rattle.std.specs.Ordering.{nat_cmp};
ghost use Rattle.cfb_directory.specs.Found.{IsThere, child_seen, storage_seen};
ghost use Rattle.msg_model.specs.MsgMessage.{in_order, numbered_in};
ghost use Rattle.msg_storage.specs.Numbered.{numbered_child, numbered_seen};

use crate::numbers::number_in;
use carrier_io::NoMemory;
use cfb_directory::{Child, Files, StorageId};
use msg_model::numbered_storages_are_in_order;
use std::alloc::Global;
use std::cmp::Ordering;

/// A storage, and the number at the end of its name.
#[derive(Clone, Copy)]
pub struct Numbered {
    pub number: u32,
    pub storage: StorageId,
}

/// A child that is a storage with a prefix and a number for its name.
fn numbered_child(files: &Files<'_>, prefix: &[u8], child: Child<'_>) -> Option<Numbered>
    requires { IfSome child.storage (IsThere files.now) }
    ensures seen { option_map (numbered_seen files.now) result ≡ numbered_child prefix.now (child_seen files.now child.entry) }
    ensures there { IfSome result (λ n. IsThere files.now n.storage) }
{
    let _files = files;
    let storage = child.storage?;
    let number = number_in(prefix, child.units)?;
    Some(Numbered { number, storage })
}

/// Appends a child that is such a storage.
fn push_numbered(
    list: &mut Vec<Numbered>,
    files: &Files<'_>,
    prefix: &[u8],
    child: Child<'_>,
) -> Result<(), NoMemory>
    requires child { IfSome child.storage (IsThere files.now) }
    requires there { All (λ n. IsThere files.now n.storage) list.old.items }
    ensures seen { OnOk result (map (numbered_seen files.now) list.new.items ≡ map (numbered_seen files.now) list.old.items ++ option_to_list (numbered_child prefix.now (child_seen files.now child.entry))) }
    ensures there { OnOk result (All (λ n. IsThere files.now n.storage) list.new.items) }
{
    match numbered_child(files, prefix, child) {
        Some(numbered) => {
            list.push(numbered)?;
            Ok(())
        }
        None => Ok(()),
    }
}

/// Such storages among the children of a storage, as they come.
fn gather(
    alloc: Global,
    files: &Files<'_>,
    at: StorageId,
    prefix: &[u8],
) -> Result<Vec<Numbered>, NoMemory>
    requires { IsThere files.now at }
    ensures seen { IfOk result (λ v. map (numbered_seen files.now) v.items ≡ numbered_in prefix.now (storage_seen files.now at).children) }
    ensures there { IfOk result (λ v. All (λ n. IsThere files.now n.storage) v.items) }
{
    let mut list = Vec::new(alloc);
    for k in 0..usize::MAX {
        match files.child(at, k) {
            Some(child) => push_numbered(&mut list, files, prefix, child)?,
            None => return Ok(list),
        }
    }
    Err(NoMemory)
}

/// The storages in a storage whose names are a prefix, ASCII letters in one case, and eight hexadecimal digits, by rising
/// number. [MS-OXMSG 2.2.1, 2.2.2]
pub fn storages_in(
    alloc: Global,
    files: &Files<'_>,
    at: StorageId,
    prefix: &[u8],
) -> Result<Vec<Numbered>, NoMemory>
    requires { IsThere files.now at }
    ensures seen { IfOk result (λ v. map (numbered_seen files.now) v.items ≡ in_order (numbered_in prefix.now (storage_seen files.now at).children)) }
    ensures there { IfOk result (λ v. All (λ n. IsThere files.now n.storage) v.items) }
{
    numbered_storages_are_in_order();
    let mut list = gather(alloc, files, at, prefix)?;
    list.sort_unstable_by(
        |one: &Numbered, other: &Numbered| -> Ordering
            ensures { result ≡ nat_cmp one.now.number other.now.number }
        { one.number.cmp(&other.number) },
    );
    Ok(list)
}
