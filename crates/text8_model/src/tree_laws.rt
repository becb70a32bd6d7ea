//! Laws about converted trees.
ghost use Rattle.std.specs.Prelude.{◌≡◌, ◌↔◌, None, IsSome};
ghost use Rattle.carrier_model.specs.Tree.{Message};
ghost use Rattle.carrier_model.specs.Trees.{IsTree};
ghost use Rattle.text8_model.specs.Become.{UnicodeOf};
ghost use Rattle.text8_model.specs.Unicode.{converted, first_unmapped};

/// The relation holds where nothing is unmapped, with the converted tree alone. So a tree becomes at most one.
pub fn converted_trees_are_exact()
    ensures iff { (t u : Message) → UnicodeOf t u ↔ ((first_unmapped t ≡ None) × (u ≡ converted t)) }
    ensures one { (t u v : Message) → UnicodeOf t u → UnicodeOf t v → u ≡ v }
{}

/// A tree has a first unmapped text exactly where it becomes no tree.
pub fn one_or_the_other()
    ensures { (t : Message) → IsSome (first_unmapped t) ↔ ((u : Message) → UnicodeOf t u → ⊥) }
{}

/// What a tree becomes is a tree: in order, and each value of the form of its kind.
pub fn converted_trees_are_trees()
    ensures { (t u : Message) → UnicodeOf t u → IsTree t → IsTree u }
{}
