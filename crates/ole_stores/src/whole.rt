//! The store that a whole compound file is. [MS-OXTNEF 2.1.3.4.2]
ghost use Rattle.std.specs.Prelude.{◌≡◌, ◌+◌, ◌≤◌, length, Err};
ghost use Rattle.carrier_io.specs.Reads.{Gives, Reads};
ghost use Rattle.carrier_model.specs.Outcomes.{moved};
ghost use Rattle.carrier_model.specs.Stores.{store_file, IsStoreFile};
ghost use Rattle.cfb_sectors.specs.Seen.{bytes_of};
ghost use Rattle.msg_tree.specs.StoreMeaning.{store_of};

use crate::reading::read_store;
use carrier_io::{Fault, Reason, Stop, Walk};
use cfb_directory::open_files;
use cfb_sectors::StreamView;
use msg_tree::Store;
use std::alloc::Global;

/// The name of the stream that makes a storage a message.
const PROPERTIES: &str = "__properties_version1.0";

/// The store of a whole compound file of either version. The first fault of the file, then StoreIsMessage at the size in
/// the directory entry of the root's property stream, then StoreTooDeep; offsets count from the file's first byte.
fn read_whole<'a>(alloc: Global, bytes: &'a [u8]) -> Result<Store<StreamView<'a>>, Stop>
    requires { length bytes.now ≤ 268435456 }
    ensures { Gives (store_of bytes_of) result (store_file bytes.now) }
{
    let mut walk = Walk::new();
    let files = open_files(alloc, bytes, &mut walk)?;
    let root = files.root();
    match files.size_offset(root, PROPERTIES) {
        Some(offset) => Err(Stop::Fault(Fault {
            reason: Reason::StoreIsMessage,
            offset,
        })),
        None => read_store(alloc, &files, root),
    }
}

/// The store of a whole compound file of either version, whose first byte stands at an offset of the input. The first
/// fault of the file, then StoreIsMessage at the size in the directory entry of the root's property stream, ASCII
/// letters folded, then StoreTooDeep. Streams stay in the input. [MS-OXTNEF 2.1.3.4.2]
pub fn read_store_file<'a>(
    alloc: Global,
    bytes: &'a [u8],
    at: u64,
) -> Result<Store<StreamView<'a>>, Stop>
    requires { at + length bytes.now ≤ 268435456 }
    ensures answer { Gives (store_of bytes_of) result (moved at (store_file bytes.now)) }
    ensures both { Reads (store_of bytes_of) result (IsStoreFile bytes.now) (λ g. moved at (store_file bytes.now) ≡ Err g) }
{
    match read_whole(alloc, bytes) {
        Ok(store) => Ok(store),
        Err(Stop::Fault(g)) => Err(Stop::Fault(Fault {
            reason: g.reason,
            offset: at + g.offset,
        })),
        Err(Stop::NoMemory) => Err(Stop::NoMemory),
    }
}
