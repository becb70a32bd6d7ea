//! Values and faults, computed on small trees.
ghost use Rattle.std.specs.Prelude.{◌≡◌, ◌∷◌, [], codes, Ok, Err};
ghost use Rattle.serde_json.specs.Data.{object, no_members};
ghost use Rattle.carrier_model.specs.SmallTrees.{integer32};
ghost use Rattle.carrier_model.specs.Tree.{message, no_more};
ghost use Rattle.json_model.specs.Faults.{form, json_fault_text, fault_here, order, range};
ghost use Rattle.json_model.specs.MessageForms.{json_of, json_text, read_json};

/// The text of a message with one Integer32 property, and that the property is found in its value.
pub fn the_json_of_one_property()
    ensures text { json_text (message (integer32 0x0017 2 ∷ []) [] no_more) ≡ codes "{\"attachments\":[],\"properties\":[{\"key\":\"0017\",\"kind\":\"Integer32\",\"value\":2}],\"recipients\":[]}" }
    ensures back { read_json (json_of (message (integer32 0x0017 2 ∷ []) [] no_more)) ≡ Ok (message (integer32 0x0017 2 ∷ []) [] no_more) }
{}

/// The first faults of an object without members, of a property that comes twice, and of a number that is too large.
pub fn faults_of_changed_values()
    ensures empty { read_json (object no_members) ≡ Err (fault_here form) }
    ensures twice { read_json (json_of (message (integer32 0x0017 2 ∷ integer32 0x0017 2 ∷ []) [] no_more)) ≡ Err (record { why = order; path = 1 ∷ 1 ∷ [] }) }
    ensures large { read_json (json_of (message (integer32 0x0017 4294967296 ∷ []) [] no_more)) ≡ Err (record { why = range; path = 1 ∷ 0 ∷ 2 ∷ [] }) }
{}

/// The lines of two faults.
pub fn faults_in_print()
    ensures top { json_fault_text (fault_here form) ≡ codes "json Form at /" }
    ensures inner { json_fault_text (record { why = range; path = 1 ∷ 0 ∷ 2 ∷ [] }) ≡ codes "json Range at /1/0/2" }
{}
