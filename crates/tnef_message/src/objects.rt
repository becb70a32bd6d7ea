//! Stores in the Objects of attachments. [MS-OXTNEF 2.1.3.4.2]
ghost use Rattle.std.specs.Prelude.{◌≡◌, ◌+◌, ◌≤◌, IfOk, IfErr, Err, drop, length};
ghost use Rattle.carrier_io.specs.Reads.{OnFault};
ghost use Rattle.carrier_model.specs.Outcomes.{moved};
ghost use Rattle.carrier_model.specs.Stores.{store_file, IsStoreFile};
ghost use Rattle.msg_tree.specs.StoreMeaning.{store_of};
ghost use Rattle.tnef_message.specs.HeldBytes.{held_bytes};

use crate::held::Held;
use carrier_io::Stop;
use msg_tree::{Store, held_store};
use ole_stores::read_store_file;
use std::alloc::Global;
use tnef_props::Object;

/// The store that the compound file behind an interface's id is.
pub fn store_in<'a>(alloc: Global, object: Object<'a>) -> Result<Store<Held<'a>>, Stop>
    requires { 16 ≤ length object.bytes.now }
    ensures found { IfOk result (λ s. IsStoreFile (drop 16 object.entry.bytes.now) (store_of held_bytes s)) }
    ensures fault { IfErr result (OnFault (λ g. moved (object.entry.offset + 16) (store_file (drop 16 object.entry.bytes.now)) ≡ Err g)) }
{
    let (_, file) = object.bytes.split_at(16);
    let store = read_store_file(alloc, file, object.offset + 16)?;
    Ok(held_store(store)?)
}
