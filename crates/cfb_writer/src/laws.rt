//! A law about files that are laid out.
ghost use Rattle.std.specs.Prelude.{◌≡◌, ℕ, List, map};
ghost use Rattle.carrier_model.specs.FileTrees.{FileTree, entries_in};
ghost use Rattle.carrier_model.specs.Layout.{file_bytes, layout, plan_of};
ghost use Rattle.cfb_writer.specs.Laid.{slots_in};
ghost use Rattle.cfb_list.specs.Listed.{Child, tree_of};
ghost use Rattle.cfb_writer.specs.Planned.{laid_of, layout_of, planned};
ghost use Rattle.cfb_list.specs.Sorting.{siblings_in_order};
ghost use Rattle.cfb_list.specs.Trees.{long_in, mini_in};

use cfb_list::sorted_lists_are_trees;

/// The entries of a list whose storages are in order give the layout of the list's tree, and the totals of a tree its
/// numbers. It is the layout.
pub fn sorted_lists_are_laid_out()
    ensures sorted { (z : ℕ) (class : List ℕ) (storages : List (List Child)) → let slots = slots_in (laid_of class (tree_of (map siblings_in_order storages))) in file_bytes z (plan_of z slots) slots ≡ layout_of z class (tree_of storages) }
    ensures numbers { (z : ℕ) (class : List ℕ) (files : FileTree) → plan_of z (slots_in (laid_of class files)) ≡ planned z (entries_in files) (mini_in files) (long_in z files) }
    ensures same { (z : ℕ) (class : List ℕ) (files : FileTree) → layout_of z class files ≡ layout z class files }
{
    sorted_lists_are_trees();
}
