//! Edits, computed on small trees and few words.
ghost use Rattle.std.specs.Prelude.{◌≡◌, ◌∷◌, [], codes, Some, None, Ok, Err};
ghost use Rattle.edit_model.specs.EditTexts.{edit_text};
ghost use Rattle.edit_model.specs.EditWords.{edits_of};
ghost use Rattle.edit_model.specs.Edits.{no_place, no_property};
ghost use Rattle.edit_model.specs.SmallEdits.{edited_by, one_number};

/// Words that are no edits: a number above its kind's range, and no word at all.
pub fn words_that_are_no_edits()
    ensures range { edits_of (codes "set" ∷ codes "." ∷ codes "0017" ∷ codes "Integer32" ∷ codes "4294967296" ∷ []) ≡ None }
    ensures nothing { edits_of [] ≡ None }
{}

/// A number is set, and what was added is set and dropped again.
pub fn edits_that_are_done()
    ensures number { edited_by (codes "set" ∷ codes "." ∷ codes "0017" ∷ codes "Integer32" ∷ codes "1" ∷ []) (one_number 2) ≡ Some (Ok (one_number 1)) }
    ensures added { edited_by (codes "add-recipient" ∷ codes "." ∷ codes "set" ∷ codes "./r0" ∷ codes "3001" ∷ codes "String" ∷ codes "r" ∷ codes "drop-recipient" ∷ codes "." ∷ codes "0" ∷ []) (one_number 2) ≡ Some (Ok (one_number 2)) }
{}

/// A property that isn't there, and a message that isn't.
pub fn edits_that_cannot_be_done()
    ensures property { edited_by (codes "remove" ∷ codes "." ∷ codes "0037" ∷ codes "String" ∷ []) (one_number 2) ≡ Some (Err (0, no_property)) }
    ensures place { edited_by (codes "remove" ∷ codes "." ∷ codes "0017" ∷ codes "Integer32" ∷ codes "set" ∷ codes "./m0" ∷ codes "0017" ∷ codes "Integer32" ∷ codes "1" ∷ []) (one_number 2) ≡ Some (Err (1, no_place)) }
    ensures text { edit_text (1, no_place) ≡ codes "edit 1 NoPlace" }
{}
