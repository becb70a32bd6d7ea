//! Storages and streams looked up.
ghost use Rattle.std.specs.Prelude.{◌≡◌, ◌<◌, ◌≤◌, ℕ, List, IfSome, Some, None, slice_get, vec_len, if◌then◌else◌};
ghost use Rattle.std.specs.Option.{option_map};
ghost use Rattle.std.specs.String.{IsUtf16Of};
ghost use Rattle.carrier_model.specs.Files.{folded};
ghost use Rattle.carrier_model.specs.Links.{is_storage};
ghost use Rattle.carrier_model.specs.Lookups.{storage_named, stream_named, size_place};
ghost use Rattle.cfb_sectors.specs.Seen.{stream as stream_seen};
ghost use Rattle.cfb_sectors.specs.States.{entry_of};
ghost use Rattle.cfb_directory.specs.Families.{family_at};
ghost use Rattle.cfb_directory.specs.Named.{first_named, key_of};
ghost use Rattle.cfb_directory.specs.Opened.{IsOpened};
ghost use Rattle.cfb_directory.specs.Shown.{files, table_in};
ghost use Rattle.cfb_directory.specs.Walks.{directory_of};
ghost use Rattle.cfb_directory.specs.Found.{IsThere, storage_seen, child_seen, children_list, child_stream};

use crate::files::Files;
use crate::outline::ROOT;
use crate::wanted::wanted_name;
use cfb_sectors::StreamView;
use cfb_sectors::fields::{SIZE, STORAGE};

/// A storage of a value `Files` [MS-CFB 2.6.1].
#[derive(Clone, Copy)]
pub struct StorageId {
    entry: u32,
}

/// A child of a storage: the units of its name without the null, and which storage it is, if it is one [MS-CFB 2.6.4].
#[derive(Clone, Copy)]
pub struct Child<'f> {
    pub units: &'f [u16],
    pub storage: Option<StorageId>,
}

impl<'a> Files<'a> {
    /// The storage that all others are in [MS-CFB 2.6.2]. The files are those of some bytes.
    pub fn root(&self) -> StorageId
        ensures seen { storage_seen self.now result ≡ files self.now }
        ensures there { IsThere self.now result }
        ensures opened { ∥ IsOpened (files self.now) ∥₁ }
    {
        StorageId { entry: ROOT }
    }

    /// The child of a storage that has this name, up to the case of ASCII letters.
    fn named(&self, at: StorageId, text: &str) -> Option<u32>
        requires { IsThere self.now at }
        ensures named { (units : List ℕ) → IsUtf16Of units text.now → result ≡ first_named (key_of (directory_of self.now.sectors)) (folded units) (family_at self.now.families.items at.entry) }
        ensures inside { IfSome result (λ id. id < vec_len self.now.families) }
    {
        let text = wanted_name(text)?;
        self.families[at.entry as usize].named(text.units())
    }

    /// The storage that an entry is, if it is one.
    fn as_storage(&self, entry: u32) -> Option<StorageId>
        requires { entry < vec_len self.now.families }
        ensures { result ≡ (if is_storage (entry_of self.now.sectors entry) then Some (record { entry = entry }) else None) }
    {
        if self.sectors.kind(entry) == STORAGE {
            Some(StorageId { entry })
        } else {
            None
        }
    }

    /// The stream that an entry is, if it is one.
    fn as_stream(&self, entry: u32) -> Option<&StreamView<'a>>
        requires { entry < vec_len self.now.families }
        ensures { option_map (λ v. stream_seen v.now) result ≡ (if is_storage (entry_of self.now.sectors entry) then None else Some ((table_in self.now).stream entry)) }
    {
        if self.sectors.kind(entry) == STORAGE {
            None
        } else {
            Some(self.streams.view(entry))
        }
    }

    /// The storage of this name in a storage, up to the case of ASCII letters; None where it has none [MS-CFB 2.6.4].
    pub fn storage(&self, at: StorageId, name: &str) -> Option<StorageId>
        requires { IsThere self.now at }
        ensures found { (units : List ℕ) → IsUtf16Of units name.now → option_map (storage_seen self.now) result ≡ storage_named (storage_seen self.now at).children units }
        ensures there { IfSome result (IsThere self.now) }
    {
        let entry = self.named(at, name)?;
        self.as_storage(entry)
    }

    /// The stream of this name in a storage, up to the case of ASCII letters; None where it has none [MS-CFB 2.6.4].
    pub fn stream(&self, at: StorageId, name: &str) -> Option<&StreamView<'a>>
        requires { IsThere self.now at }
        ensures found { (units : List ℕ) → IsUtf16Of units name.now → option_map (λ v. stream_seen v.now) result ≡ option_map (λ f. f.stream) (stream_named (storage_seen self.now at).children units) }
    {
        let entry = self.named(at, name)?;
        self.as_stream(entry)
    }

    /// The child of a storage at a place in sibling order, from 0; None past the last [MS-CFB 2.6.4].
    pub fn child(&self, at: StorageId, k: usize) -> Option<Child<'_>>
        requires { IsThere self.now at }
        ensures found { option_map (child_seen self.now) result ≡ slice_get (children_list (storage_seen self.now at).children) k }
        ensures there { IfSome result (λ c. IfSome c.storage (IsThere self.now)) }
    {
        let family = &self.families[at.entry as usize];
        let entry = *family.children().get(k)?;
        Some(Child {
            units: family.name(k),
            storage: self.as_storage(entry),
        })
    }

    /// The child of a storage at a place in sibling order, from 0, where it is a stream; else None [MS-CFB 2.6.4].
    pub fn child_stream(&self, at: StorageId, k: usize) -> Option<&StreamView<'a>>
        requires { IsThere self.now at }
        ensures { option_map (λ v. stream_seen v.now) result ≡ child_stream (storage_seen self.now at).children k }
    {
        let entry = *self.families[at.entry as usize].children().get(k)?;
        self.as_stream(entry)
    }

    /// The class of a storage, as its entry has it [MS-CFB 2.6.1].
    pub fn class(&self, at: StorageId) -> [u8; 16]
        requires { IsThere self.now at }
        ensures { result ≡ (storage_seen self.now at).class }
    {
        self.sectors.class(at.entry)
    }

    /// The file offset of a storage's entry, in bytes [MS-CFB 2.6.1].
    pub fn storage_offset(&self, at: StorageId) -> u64
        requires { IsThere self.now at }
        ensures place { result ≡ (storage_seen self.now at).place }
        ensures low { result ≤ 268435328 }
    {
        self.sectors.entry_offset(at.entry)
    }

    /// The file offset of the size of a stream, in its entry; None where the storage has no such stream. [MS-CFB 2.6.1]
    pub fn size_offset(&self, at: StorageId, name: &str) -> Option<u64>
        requires { IsThere self.now at }
        ensures { (units : List ℕ) → IsUtf16Of units name.now → result ≡ option_map size_place (stream_named (storage_seen self.now at).children units) }
    {
        let entry = self.named(at, name)?;
        if self.sectors.kind(entry) == STORAGE {
            None
        } else {
            Some(self.sectors.entry_offset(entry) + SIZE as u64)
        }
    }
}
