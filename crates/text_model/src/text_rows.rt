//! Texts, computed on small trees.
ghost use Rattle.std.specs.Prelude.{◌≡◌, ◌∷◌, [], codes};
ghost use Rattle.carrier_model.specs.SmallTrees.{integer32, string_prop, small_store, holding};
ghost use Rattle.carrier_model.specs.Tree.{message, no_more, attached, embedded};
ghost use Rattle.text_model.specs.TreeTexts.{show_text, check_text, tnef_stream};

/// What `show` and `check` say of a message with one Integer32 property.
pub fn texts_of_one_property()
    ensures show { show_text (message (integer32 0x0017 2 ∷ []) [] no_more) ≡ codes "message\n  0017 Integer32 2\n" }
    ensures check { check_text tnef_stream (message (integer32 0x0017 2 ∷ []) [] no_more) [] ≡ codes "carrier tnef\nmessages 1\nrecipients 0\nattachments 0\nproperties 1\nnames 0\ndepth 0\n" }
{}

/// What `show` says of a store.
pub fn the_text_of_a_store()
    ensures { show_text (holding small_store) ≡ codes "message\n  attachment 0\n    storage 3 streams 5 bytes\n" }
{}

/// What `show` says of a message with a recipient and a message in it, of a text that has to be quoted, and of a number below 0.
pub fn the_text_of_a_message_with_parts()
    ensures { show_text (message (integer32 0x0017 0xFFFFFFFF ∷ string_prop 0x0037 (codes "a\"b\n") ∷ []) ((string_prop 0x3001 (codes "r") ∷ []) ∷ []) (attached (integer32 0x3705 5 ∷ []) (embedded (message (integer32 0x0017 0 ∷ []) [] no_more)) no_more)) ≡ codes "message\n  0017 Integer32 -1\n  0037 String \"a\\0022b\\000A\"\n  recipient 0\n    3001 String \"r\"\n  attachment 0\n    3705 Integer32 5\n    message\n      0017 Integer32 0\n" }
{}
