//! Texts, computed on small lists and trees.
ghost use Rattle.std.specs.Prelude.{◌≡◌, ◌∷◌, [], codes, Some, None};
ghost use Rattle.std.specs.Option.{option_map};
ghost use Rattle.carrier_model.specs.Keys.{id};
ghost use Rattle.carrier_model.specs.SmallTrees.{integer32, string_prop};
ghost use Rattle.carrier_model.specs.Tree.{message, no_more, attached, embedded};
ghost use Rattle.carrier_model.specs.Values.{bytes, parts};
ghost use Rattle.text8_model.specs.Pages.{windows_1252, latin_1, us_ascii, utf_8};
ghost use Rattle.text8_model.specs.Texts.{units_in, bad_place};
ghost use Rattle.text8_model.specs.Unicode.{converted, first_unmapped};
ghost use Rattle.text8_model.specs.Unmapped.{unmapped_text};

/// Units and first bad bytes in pages of single bytes.
pub fn units_of_pages()
    ensures quotes { units_in windows_1252 (0x93 ∷ 0x41 ∷ 0x94 ∷ 0xFF ∷ []) ≡ 0x201C ∷ 0x41 ∷ 0x201D ∷ 0xFF ∷ [] }
    ensures quoted { bad_place windows_1252 (0x93 ∷ 0x41 ∷ 0x94 ∷ 0xFF ∷ []) ≡ None }
    ensures gap { bad_place windows_1252 (0x41 ∷ 0x81 ∷ []) ≡ Some 1 }
    ensures latin { units_in latin_1 (0x81 ∷ 0xE4 ∷ []) ≡ 0x81 ∷ 0xE4 ∷ [] }
    ensures all { bad_place latin_1 (0x81 ∷ 0xE4 ∷ []) ≡ None }
    ensures high { bad_place us_ascii (0x41 ∷ 0x80 ∷ []) ≡ Some 1 }
{}

/// Units and first bad bytes in UTF-8.
pub fn characters_of_utf_8()
    ensures pair { units_in utf_8 (0xF0 ∷ 0x9F ∷ 0x93 ∷ 0xA7 ∷ []) ≡ 0xD83D ∷ 0xDCE7 ∷ [] }
    ensures whole { bad_place utf_8 (0xF0 ∷ 0x9F ∷ 0x93 ∷ 0xA7 ∷ []) ≡ None }
    ensures overlong { bad_place utf_8 (0x41 ∷ 0xC1 ∷ 0x81 ∷ []) ≡ Some 1 }
    ensures surrogate { bad_place utf_8 (0xC3 ∷ 0xA4 ∷ 0xED ∷ 0xA0 ∷ 0x80 ∷ []) ≡ Some 2 }
    ensures above { bad_place utf_8 (0xF4 ∷ 0x90 ∷ 0x80 ∷ 0x80 ∷ []) ≡ Some 0 }
    ensures cut { bad_place utf_8 (0x41 ∷ 0x42 ∷ 0xE2 ∷ 0x82 ∷ []) ≡ Some 2 }
{}

/// A text in the page that its message names, and beside a String of the same key.
pub fn the_page_of_a_text()
    ensures named { converted (message (record { key = id 0x0037; value = bytes 0x001E (0xC3 ∷ 0xA4 ∷ []) } ∷ integer32 0x3FFD 65001 ∷ []) [] no_more) ≡ message (record { key = id 0x0037; value = bytes 0x001F (0xE4 ∷ 0 ∷ []) } ∷ integer32 0x3FFD 65001 ∷ []) [] no_more }
    ensures beside { converted (message (record { key = id 0x0037; value = bytes 0x001E (0x81 ∷ []) } ∷ string_prop 0x0037 (codes "a") ∷ []) [] no_more) ≡ message (record { key = id 0x0037; value = bytes 0x001E (0x81 ∷ []) } ∷ string_prop 0x0037 (codes "a") ∷ []) [] no_more }
    ensures stays { first_unmapped (message (record { key = id 0x0037; value = bytes 0x001E (0x81 ∷ []) } ∷ string_prop 0x0037 (codes "a") ∷ []) [] no_more) ≡ None }
    ensures unused { first_unmapped (message (integer32 0x3FFD 932 ∷ []) [] no_more) ≡ None }
{}

/// The page of a message in an attachment that names none, and elements of a multiple value.
pub fn the_page_of_a_message_in_another()
    ensures { converted (message (integer32 0x3FFD 28591 ∷ []) [] (attached [] (embedded (message (record { key = id 0x0037; value = parts 0x101E ((0x81 ∷ []) ∷ [] ∷ []) } ∷ []) [] no_more)) no_more)) ≡ message (integer32 0x3FFD 28591 ∷ []) [] (attached [] (embedded (message (record { key = id 0x0037; value = parts 0x101F ((0x81 ∷ 0 ∷ []) ∷ [] ∷ []) } ∷ []) [] no_more)) no_more) }
{}

/// The first that isn't mapped, and what the report says of it.
pub fn the_first_unmapped()
    ensures byte { option_map unmapped_text (first_unmapped (message (record { key = id 0x0037; value = bytes 0x001E (0x41 ∷ 0x81 ∷ []) } ∷ []) [] no_more)) ≡ Some (codes "unmapped Byte property 0 element 0 at 1 page 1252") }
    ensures page { option_map unmapped_text (first_unmapped (message (record { key = id 0x0037; value = bytes 0x001E [] } ∷ integer32 0x3FFD 932 ∷ []) [] no_more)) ≡ Some (codes "unmapped Page property 0 element 0 at 0 page 932") }
    ensures element { option_map unmapped_text (first_unmapped (message (integer32 0x0017 1 ∷ []) ((integer32 0x0C15 1 ∷ []) ∷ []) (attached (integer32 0x3705 5 ∷ []) (embedded (message (record { key = id 0x0037; value = parts 0x101E ((0x41 ∷ []) ∷ (0x41 ∷ 0x8D ∷ []) ∷ []) } ∷ []) [] no_more)) no_more))) ≡ Some (codes "unmapped Byte property 3 element 1 at 1 page 1252") }
{}
