//! Stores as compound files.
ghost use Rattle.std.specs.Prelude.{◌≡◌, ◌<◌, ◌∷◌, [], length, OnOk, IfOk, IfErr};
ghost use Rattle.carrier_model.specs.FileTrees.{files_from};
ghost use Rattle.carrier_model.specs.Stores.{AreMembers, IsStore, store_bytes};
ghost use Rattle.cfb_list.specs.Grown.{grown};
ghost use Rattle.cfb_writer.specs.PlanEnds.{IsEndOf};
ghost use Rattle.msg_tree.specs.StoreMeaning.{store_of, member_of};

use carrier_io::{Blob, NoMemory, PlanEnd};
use cfb_list::{Content, FileList, grown_lists_are_trees};
use cfb_writer::{Plan, Version, sorted_lists_are_laid_out};
use msg_tree::{Member, Store};
use std::alloc::Global;

/// Adds the members of a store behind what is in a storage, which its number names. After NoMemory some may be there.
/// [MS-CFB 1.3]
#[cycle(adding)]
pub fn add_store<'t, B: Blob>(
    files: &mut FileList<'t, B>,
    at: usize,
    store: &'t Store<B>,
) -> Result<(), NoMemory>
    requires at { at < length files.old.storages }
    requires members { AreMembers (store_of B.bytes store.now).members }
    ensures { OnOk result (files.new ≡ record files.old { storages = grown files.old.storages at (store_of B.bytes store.now).members }) }
{
    grown_lists_are_trees();
    for k in 0..store.len() {
        add_member(files, at, store.name(k), store.member(k))?;
    }
    Ok(())
}

/// Adds one member.
#[cycle(adding)]
fn add_member<'t, B: Blob>(
    files: &mut FileList<'t, B>,
    at: usize,
    name: &'t [u16],
    member: &'t Member<B>,
) -> Result<(), NoMemory>
    requires at { at < length files.old.storages }
    requires member { AreMembers (files_from ((name.now, member_of B.bytes member.now) ∷ [])) }
    ensures { OnOk result (files.new ≡ record files.old { storages = grown files.old.storages at (files_from ((name.now, member_of B.bytes member.now) ∷ [])) }) }
{
    match member {
        Member::Stream(bytes) => {
            files.add_named_stream(at, name, Content::Value { bytes, zeros: 0 })
        }
        Member::Storage(inner) => {
            let number = files.add_named_storage(at, name, inner.class())?;
            add_store(files, number, inner)
        }
    }
}

/// The version 3 file of a store. TooLarge says that it has more bytes than an output may have, and how many; a number
/// above the greatest `u64` stays there. NoMemory says that memory ran out. [MS-CFB 2.2]
pub fn store_plan<'t, B: Blob>(alloc: Global, store: &'t Store<B>) -> Result<Plan<'t, B>, PlanEnd>
    requires { IsStore (store_of B.bytes store.now) }
    ensures ok { IfOk result (λ p. p ≡ store_bytes (store_of B.bytes store.entry.now)) }
    ensures end { IfErr result (IsEndOf (store_bytes (store_of B.bytes store.entry.now))) }
{
    grown_lists_are_trees();
    sorted_lists_are_laid_out();
    let mut files = FileList::new(alloc)?;
    files.set_root_class(store.class());
    add_store(&mut files, 0, store)?;
    Plan::new(alloc, Version::Three, files)
}
