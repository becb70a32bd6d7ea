//! The list of storages and streams that are to be written.
ghost use Rattle.std.specs.Prelude.{◌≡◌, ◌<◌, ◌≤◌, ◌∷◌, ◌++◌, [], length, take, IfOk, OnOk, OnErr};
ghost use Rattle.carrier_model.specs.FileTrees.{NO_CLASS};
ghost use Rattle.carrier_model.specs.Layout.{MESSAGE_CLASS};

use crate::content::{Content, File, Kept, Name, Storage};
use crate::sorted::SortedList;
use carrier_io::{Blob, NoMemory};
use std::alloc::Global;
use std::marker::Model;

/// The class of the root of a .msg file: {00020D0B-0000-0000-C000-000000000046}.
const MSG_CLASS: [u8; 16] = [
    0x0B, 0x0D, 0x02, 0x00, 0x00, 0x00, 0x00, 0x00, 0xC0, 0x00, 0x00, 0x00, 0x00, 0x00, 0x00, 0x46,
];

/// Storages and streams, as they were added. The root has the number 0, and each other storage the next one.
///
/// Any list can be planned and written. Siblings with one name are written in the order in which they were added, but
/// readers refuse such a file. [MS-CFB 2.6.4] Storages may lie in one another as deep as memory allows, but readers go 100
/// deep.
#[derive(Drop)]
pub struct FileList<'t, B: Blob> {
    alloc: Global,
    root_class: [u8; 16],
    storages: Vec<Storage<'t, B>>,
}

impl<'t, B: Blob> Model for FileList<'t, B> {
    ghost use Rattle.std.specs.Prelude.{map};
    ghost use Rattle.cfb_list.specs.Listed.{Listed, IsSound};
    ghost use Rattle.cfb_list.specs.Contents.{storages_of};

    ghost Value = { Listed };

    ghost view = { λ s. record { root_class = s.root_class; storages = storages_of B.bytes s.storages.items } };

    ghost invariant = { λ s. IsSound (storages_of B.bytes s.storages.items) };
}

impl<'t, B: Blob> FileList<'t, B> {
    ghost use Rattle.std.specs.Prelude.{flat_map, map};
    ghost use Rattle.carrier_model.specs.FileTrees.{sorted, streams_from};
    ghost use Rattle.cfb_list.specs.Contents.{content_bytes, file_children, name_units, row_streams};
    ghost use Rattle.carrier_model.specs.KeyTexts.{hex_digits, upper};
    ghost use Rattle.cfb_list.specs.Grown.{grown};
    ghost use Rattle.std.specs.List.{AllByRecursion};
    ghost use Rattle.cfb_list.specs.Listed as listed;
    ghost use Rattle.cfb_list.specs.Sorting.{siblings_in_order};
    ghost use Rattle.cfb_list.specs.Trees.{inside};

    /// The root alone, with the class of a .msg file. NoMemory says that memory ran out. [MS-OXMSG 2.2, MS-CFB 2.6.2]
    pub fn new(alloc: Global) -> Result<FileList<'t, B>, NoMemory>
        ensures { IfOk result (λ list. list ≡ record { root_class = MESSAGE_CLASS; storages = [] ∷ [] }) }
    {
        let mut storages = Vec::new(alloc);
        storages.push(Storage {
            files: Vec::new(alloc),
        })?;
        Ok(FileList {
            alloc,
            root_class: MSG_CLASS,
            storages,
        })
    }

    /// Gives the root a class of 16 bytes, as they stand in the file. [MS-CFB 2.6.1]
    pub fn set_root_class(&mut self, class: [u8; 16])
        ensures { self.new ≡ record self.old { root_class = class } }
    {
        self.root_class = class;
    }

    /// The class of the root.
    pub fn root_class(&self) -> [u8; 16]
        ensures { result ≡ self.now.root_class }
    {
        self.root_class
    }

    /// What is in each storage, in its order. Each storage is sorted once. NoMemory says that memory
    /// ran out, or that more was added to one storage, or in one row, than a number of 32 bits tells.
    pub fn sorted(self) -> Result<SortedList<'t, B>, NoMemory>
        ensures value { IfOk result (λ list. list ≡ map siblings_in_order self.entry.storages) }
        ensures tree { IfOk result (λ list. listed.tree_of list ≡ sorted (listed.tree_of self.entry.storages)) }
        ensures sound { IfOk result (λ list. listed.IsSound list) }
    {
        SortedList::of_storages(self.alloc, self.storages)
    }

    /// How many storages there are, with the root.
    pub fn count(&self) -> usize
        ensures count { result ≡ length self.now.storages }
        ensures sound { listed.IsSound self.now.storages }
    {
        self.storages.len()
    }

    /// What is in a storage.
    pub fn files_in(&self, parent: usize) -> &[File<'t, B>]
        requires { parent < length self.now.storages }
        ensures seen { flat_map (file_children B.bytes) result.now ≡ listed.children_at self.now.storages parent }
        ensures sound { AllByRecursion (listed.IsChild parent (length self.now.storages)) (listed.children_at self.now.storages parent) }
        ensures tree { inside self.now.storages parent ≡ listed.built (inside self.now.storages) (listed.children_at self.now.storages parent) }
    {
        &self.storages[parent].files
    }

    /// Puts a file behind the others of a storage.
    fn add(&mut self, parent: usize, file: File<'t, B>) -> Result<(), NoMemory>
        requires parent { parent < length self.old.storages }
        requires children { AllByRecursion (listed.IsChild parent (length self.old.storages)) (file_children B.bytes file) }
        ensures ok { OnOk result (self.new ≡ record self.old { storages = listed.with_children self.old.storages parent (file_children B.bytes file.entry) }) }
        ensures err { OnErr result (self.new ≡ self.old) }
    {
        push_file(&mut self.storages[parent].files, file)?;
        Ok(())
    }

    /// Puts a storage behind the others, in which there is nothing.
    fn add_empty(&mut self) -> Result<(), NoMemory>
        ensures ok { OnOk result (self.new ≡ record self.old { storages = self.old.storages ++ [] ∷ [] }) }
        ensures err { OnErr result (self.new ≡ self.old) }
    {
        let files = Vec::new(self.alloc);
        self.storages.push(Storage { files })?;
        Ok(())
    }

    /// Keeps so many storages.
    fn keep_first(&mut self, count: usize)
        requires { listed.IsSound (take count self.old.storages) }
        ensures { self.new ≡ record self.old { storages = take count self.old.storages } }
    {
        self.storages.truncate(count);
    }

    /// Adds a stream whose name has these units.
    fn put_stream(
        &mut self,
        parent: usize,
        name: Name<'t>,
        content: Content<'t, B>,
    ) -> Result<(), NoMemory>
        requires parent { parent < length self.old.storages }
        requires name { length (name_units name) ≤ 31 }
        ensures ok { OnOk result (self.new ≡ record self.old { storages = listed.with_child self.old.storages parent (listed.stream (name_units name.entry) (content_bytes B.bytes content.entry)) }) }
        ensures err { OnErr result (self.new ≡ self.old) }
    {
        let content = Kept::of_content(self.alloc, content)?;
        self.add(parent, File::Stream { name, content })
    }

    /// Adds a storage whose name has these units, with a class, and answers its number. NoMemory says that memory ran out, or
    /// that there are more storages than a number of 32 bits tells.
    fn put_storage(
        &mut self,
        parent: usize,
        name: Name<'t>,
        class: [u8; 16],
    ) -> Result<usize, NoMemory>
        requires parent { parent < length self.old.storages }
        requires name { length (name_units name) ≤ 31 }
        ensures number { IfOk result (λ n. n ≡ length self.old.storages) }
        ensures ok { OnOk result (self.new ≡ record self.old { storages = listed.with_child self.old.storages parent (listed.storage (name_units name.entry) class (length self.old.storages)) ++ [] ∷ [] }) }
        ensures err { OnErr result (self.new ≡ self.old) }
    {
        let number = self.storages.len();
        let Ok(told) = u32::try_from(number) else {
            return Err(NoMemory);
        };
        self.add_empty()?;
        let file = File::Storage {
            number: told,
            name,
            class,
        };
        match self.add(parent, file) {
            Ok(()) => Ok(number),
            Err(refused) => {
                self.keep_first(number);
                Err(refused)
            }
        }
    }

    /// Adds a stream to the storage with a number, by the UTF-16 units of its name. After NoMemory the list is unchanged.
    /// [MS-CFB 2.6.1]
    pub fn add_named_stream(
        &mut self,
        parent: usize,
        name: &[u16],
        content: Content<'t, B>,
    ) -> Result<(), NoMemory>
        requires parent { parent < length self.old.storages }
        requires name { length name.now ≤ 31 }
        ensures ok { OnOk result (self.new ≡ record self.old { storages = listed.with_child self.old.storages parent (listed.stream name.now (content_bytes B.bytes content.entry)) }) }
        ensures err { OnErr result (self.new ≡ self.old) }
    {
        let name = Name::of_units(self.alloc, name.to_vec(self.alloc)?)?;
        self.put_stream(parent, name, content)
    }

    /// Adds a storage to that with a number, by the UTF-16 units of its name and a class of 16 bytes, and answers its
    /// number. After NoMemory the list is unchanged. [MS-CFB 2.6.1]
    pub fn add_named_storage(
        &mut self,
        parent: usize,
        name: &[u16],
        class: [u8; 16],
    ) -> Result<usize, NoMemory>
        requires parent { parent < length self.old.storages }
        requires name { length name.now ≤ 31 }
        ensures number { IfOk result (λ n. n ≡ length self.old.storages) }
        ensures ok { OnOk result (self.new ≡ record self.old { storages = listed.with_child self.old.storages parent (listed.storage name.now class (length self.old.storages)) ++ [] ∷ [] }) }
        ensures err { OnErr result (self.new ≡ self.old) }
    {
        let name = Name::of_units(self.alloc, name.to_vec(self.alloc)?)?;
        self.put_storage(parent, name, class)
    }

    /// Adds a stream to the storage with a number, by a name of ASCII characters. After NoMemory the list is unchanged.
    /// [MS-CFB 2.6.1]
    pub fn add_stream(
        &mut self,
        parent: usize,
        name: &str,
        content: Content<'t, B>,
    ) -> Result<(), NoMemory>
        requires parent { parent < length self.old.storages }
        requires name { length name.now ≤ 31 }
        ensures ok { OnOk result (self.new ≡ record self.old { storages = listed.with_child self.old.storages parent (listed.stream name.now (content_bytes B.bytes content.entry)) }) }
        ensures err { OnErr result (self.new ≡ self.old) }
    {
        let name = Name::of_units(self.alloc, units_of(self.alloc, name)?)?;
        self.put_stream(parent, name, content)
    }

    /// Adds a stream to the storage with a number, by a name that is a front, which stays where it is, and a number in eight
    /// hexadecimal digits. After NoMemory the list is unchanged. [MS-OXMSG 2.1.3]
    pub fn add_numbered_stream(
        &mut self,
        parent: usize,
        front: &'t [u16],
        number: u32,
        content: Content<'t, B>,
    ) -> Result<(), NoMemory>
        requires parent { parent < length self.old.storages }
        requires front { length front.now ≤ 23 }
        ensures ok { OnOk result (self.new ≡ record self.old { storages = listed.with_child self.old.storages parent (listed.stream (front.now ++ hex_digits upper 8 number) (content_bytes B.bytes content.entry)) }) }
        ensures err { OnErr result (self.new ≡ self.old) }
    {
        self.put_stream(parent, Name::Numbered { number, front }, content)
    }

    /// Adds a storage without a class to that with a number, by a name that is a front, which stays where it is, and a number
    /// in eight hexadecimal digits, and answers the number of the storage. After NoMemory the list is unchanged.
    /// [MS-OXMSG 2.2.1, 2.2.2]
    pub fn add_numbered_storage(
        &mut self,
        parent: usize,
        front: &'t [u16],
        number: u32,
    ) -> Result<usize, NoMemory>
        requires parent { parent < length self.old.storages }
        requires front { length front.now ≤ 23 }
        ensures number { IfOk result (λ n. n ≡ length self.old.storages) }
        ensures ok { OnOk result (self.new ≡ record self.old { storages = listed.with_child self.old.storages parent (listed.storage (front.now ++ hex_digits upper 8 number) NO_CLASS (length self.old.storages)) ++ [] ∷ [] }) }
        ensures err { OnErr result (self.new ≡ self.old) }
    {
        self.put_storage(parent, Name::Numbered { number, front }, [0; 16])
    }

    /// Adds a stream for each of some values, by a front of ASCII characters before its number, from 0 on, in eight
    /// hexadecimal digits, with so many zeros behind its bytes. It takes no memory for each. After NoMemory the list is
    /// unchanged. [MS-OXMSG 2.1.4]
    pub fn add_row(
        &mut self,
        parent: usize,
        front: &str,
        list: &'t [B],
        zeros: u8,
    ) -> Result<(), NoMemory>
        requires parent { parent < length self.old.storages }
        requires front { length front.now ≤ 23 }
        ensures ok { OnOk result (self.new ≡ record self.old { storages = grown self.old.storages parent (streams_from (row_streams front.now zeros 0 (map B.bytes list.now))) }) }
        ensures err { OnErr result (self.new ≡ self.old) }
    {
        let front = units_of(self.alloc, front)?;
        self.add(parent, File::Row { zeros, front, list })
    }

    /// Adds a storage without a class to that with a number, by a name of ASCII characters, and answers its number. After
    /// NoMemory the list is unchanged. [MS-CFB 2.6.1]
    pub fn add_storage(&mut self, parent: usize, name: &str) -> Result<usize, NoMemory>
        requires parent { parent < length self.old.storages }
        requires name { length name.now ≤ 31 }
        ensures number { IfOk result (λ n. n ≡ length self.old.storages) }
        ensures ok { OnOk result (self.new ≡ record self.old { storages = listed.with_child self.old.storages parent (listed.storage name.now NO_CLASS (length self.old.storages)) ++ [] ∷ [] }) }
        ensures err { OnErr result (self.new ≡ self.old) }
    {
        let name = Name::of_units(self.alloc, units_of(self.alloc, name)?)?;
        self.put_storage(parent, name, [0; 16])
    }
}

/// Puts a file behind others. Room doubles from one file on, so that a storage with few takes little.
fn push_file<'t, B: Blob>(files: &mut Vec<File<'t, B>>, file: File<'t, B>) -> Result<(), NoMemory>
    ensures ok { OnOk result (files.new.items ≡ files.old.items ++ file.entry ∷ []) }
    ensures err { OnErr result (files.new.items ≡ files.old.items) }
{
    if files.len() == files.capacity() {
        files.reserve_exact(files.len().max(1))?;
    }
    files.push(file)?;
    Ok(())
}

/// The units of a text of ASCII characters.
fn units_of(alloc: Global, text: &str) -> Result<Vec<u16>, NoMemory>
    ensures { IfOk result (λ units. units.items ≡ text.now) }
{
    let mut units = Vec::with_capacity(alloc, text.len())?;
    for byte in text.as_bytes() {
        units.push(u16::from(*byte))?;
    }
    Ok(units)
}
