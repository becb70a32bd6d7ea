//! Laws about edits.
ghost use Rattle.std.specs.Prelude.{◌≡◌, ◌↔◌, ◌⊎◌, ℕ, List, All, Ok, Err, Some};
ghost use Rattle.carrier_model.specs.Tree.{Message};
ghost use Rattle.carrier_model.specs.Trees.{IsTree};
ghost use Rattle.edit_model.specs.EditWords.{edits_of};
ghost use Rattle.edit_model.specs.Edits.{Edit, EditFault, edited_tree, IsEdit, IsFirstFault, Makes};

/// Edits make one tree, each of what those before it made, or there is one first edit that can't be done, and not both.
pub fn edits_are_exact()
    ensures done { (es : List Edit) (t u : Message) → (edited_tree es t ≡ Ok u) ↔ Makes es t u }
    ensures fault { (es : List Edit) (t : Message) (g : EditFault) → (edited_tree es t ≡ Err g) ↔ IsFirstFault es t g }
    ensures either { (es : List Edit) (t : Message) → ((u : Message) × Makes es t u) ⊎ ((g : EditFault) × IsFirstFault es t g) }
    ensures one { (es : List Edit) (t u v : Message) → Makes es t u → Makes es t v → v ≡ u }
    ensures single { (es : List Edit) (t : Message) (g h : EditFault) → IsFirstFault es t g → IsFirstFault es t h → h ≡ g }
    ensures apart { (es : List Edit) (t u : Message) (g : EditFault) → Makes es t u → IsFirstFault es t g → ⊥ }
{}

/// Well-formed edits make a well-formed tree of one.
pub fn edited_trees_are_trees()
    ensures { (es : List Edit) (t u : Message) → All IsEdit es → IsTree t → edited_tree es t ≡ Ok u → IsTree u }
{}

/// Edits that words are are well-formed.
pub fn edits_of_words_are_edits()
    ensures { (words : List (List ℕ)) (es : List Edit) → edits_of words ≡ Some es → All IsEdit es }
{}
