//! Laws about the stores that attachments hold.
ghost use Rattle.std.specs.Prelude.{◌≡◌, ◌≤◌, ℕ, List, length, map, IsPermutation, Ok};
ghost use Rattle.carrier_model.specs.Bytes.{MOST_BYTES};
ghost use Rattle.carrier_model.specs.FileTrees.{FileTree, file_names, files_listed, in_order_below, sorted, Store};
ghost use Rattle.carrier_model.specs.Files.{Files};
ghost use Rattle.carrier_model.specs.Holds.{AreApart};
ghost use Rattle.carrier_model.specs.Stores.{AreInOrder, AreMembers, IsStore, store_in, StoreMeans, store_file, IsStoreFile, store_bytes};

/// What is answered of a storage is the store that it means, and it is answered wherever it means one.
pub fn stores_of_storages_are_exact()
    ensures sound { (s : Files) (x : Store) → store_in s ≡ Ok x → StoreMeans s x }
    ensures only { (s : Files) (x : Store) → StoreMeans s x → store_in s ≡ Ok x }
{}

/// The same of a whole compound file that is no longer than the greatest input.
pub fn stores_of_files_are_exact()
    ensures sound { (b : List ℕ) (x : Store) → length b ≤ MOST_BYTES → store_file b ≡ Ok x → IsStoreFile b x }
    ensures only { (b : List ℕ) (x : Store) → IsStoreFile b x → store_file b ≡ Ok x }
{}

/// Siblings that are put in order are the same siblings, what is below them in order too. Where their names differ they
/// are in order, and where they are in order they stay as they are.
pub fn siblings_are_put_in_order()
    ensures same { (files : FileTree) → IsPermutation (map in_order_below (files_listed files)) (files_listed (sorted files)) }
    ensures order { (files : FileTree) → AreApart (file_names files) → AreInOrder (sorted files) }
    ensures stay { (files : FileTree) → AreInOrder files → AreMembers files → sorted files ≡ files }
{}

/// The compound file of a store is that store.
pub fn written_stores_are_read()
    ensures { (x : Store) → IsStore x → length (store_bytes x) ≤ MOST_BYTES → IsStoreFile (store_bytes x) x }
{}
