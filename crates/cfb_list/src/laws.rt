//! Laws about lists of files.
ghost use Rattle.std.specs.Prelude.{◌≡◌, ℕ, ◌+◌, ◌<◌, ◌++◌, ◌∷◌, [], List, length, map};
ghost use Rattle.carrier_model.specs.FileTrees.{FileTree, and_files, entries_in, files_from, files_listed, sorted};
ghost use Rattle.cfb_list.specs.Grown.{MayBeAdded, grown, storages_in};
ghost use Rattle.cfb_list.specs.Listed.{Child, IsSound, tree_of};
ghost use Rattle.cfb_list.specs.Sorting.{siblings_in_order};
ghost use Rattle.cfb_list.specs.Trees.{inside, long_in, mini_in};

/// A list whose storages are in order is a list of the tree in order, and as sound as before.
pub fn sorted_lists_are_trees()
    ensures sound { (storages : List (List Child)) → IsSound storages → IsSound (map siblings_in_order storages) }
    ensures tree { (storages : List (List Child)) → tree_of (map siblings_in_order storages) ≡ sorted (tree_of storages) }
{}

/// A list whose storages are in order has as many entries, mini sectors and sectors as before.
pub fn sorted_lists_need_as_much()
    ensures entries { (storages : List (List Child)) (k : ℕ) → entries_in (inside (map siblings_in_order storages) k) ≡ entries_in (inside storages k) }
    ensures mini { (storages : List (List Child)) (k : ℕ) → mini_in (inside (map siblings_in_order storages) k) ≡ mini_in (inside storages k) }
    ensures long { (z : ℕ) (storages : List (List Child)) (k : ℕ) → long_in z (inside (map siblings_in_order storages) k) ≡ long_in z (inside storages k) }
{}

/// A list to which the files of a tree are added is a list of that tree. It has one storage more for each of the tree's, it
/// stays sound, and files that are added in two steps are added at once; those are one tree behind the other.
pub fn grown_lists_are_trees()
    ensures tree { (files : FileTree) → tree_of (grown ([] ∷ []) 0 files) ≡ files }
    ensures count { (storages : List (List Child)) (parent : ℕ) (files : FileTree) → length (grown storages parent files) ≡ length storages + storages_in files }
    ensures sound { (storages : List (List Child)) (parent : ℕ) (files : FileTree) → IsSound storages → parent < length storages → MayBeAdded files → IsSound (grown storages parent files) }
    ensures steps { (storages : List (List Child)) (parent : ℕ) (files more : FileTree) → grown (grown storages parent files) parent more ≡ grown storages parent (and_files files more) }
    ensures joined { (files more : FileTree) → files_from (files_listed files ++ files_listed more) ≡ and_files files more }
{}
