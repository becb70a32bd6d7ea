//! Laws about texts in code pages.
ghost use Rattle.std.specs.Prelude.{◌≡◌, ◌↔◌, ◌≤◌, ℕ, List, length, Some, None};
ghost use Rattle.text8_model.specs.Pages.{Page};
ghost use Rattle.text8_model.specs.Texts.{TextOf, IsFirstBad, bad_place, units_in};

/// A text means one list of units, or has one first byte that begins no sequence of its page, and never both.
pub fn texts_are_exact()
    ensures units { (page : Page) (x u : List ℕ) → TextOf page x u ↔ ((bad_place page x ≡ None) × (u ≡ units_in page x)) }
    ensures bad { (page : Page) (x : List ℕ) (at : ℕ) → bad_place page x ≡ Some at → IsFirstBad page x at }
    ensures short { (page : Page) (x u : List ℕ) → TextOf page x u → length u ≤ length x }
{}
