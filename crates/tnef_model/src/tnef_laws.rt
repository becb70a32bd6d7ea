//! Laws about what a TNEF stream means.
ghost use Rattle.std.specs.Prelude.{◌≡◌, ◌<◌, ◌≤◌, ◌^◌, ℕ, List, [], Bool, None, length};
ghost use Rattle.carrier_model.specs.Bytes.{AllBytes, MOST_BYTES};
ghost use Rattle.tnef_model.specs.Attributes.{Attrs, AttrsFault};
ghost use Rattle.carrier_model.specs.Grammar.{Means};
ghost use Rattle.carrier_model.specs.Keys.{Name};
ghost use Rattle.tnef_model.specs.TnefCanonical.{list_bytes, tnef_of};
ghost use Rattle.tnef_model.specs.TnefLists.{prop_list, recipient_lists};
ghost use Rattle.tnef_model.specs.TnefMessage.{message_within, TnefCarrier, TnefFault};
ghost use Rattle.carrier_model.specs.Meanings.{Passed};
ghost use Rattle.carrier_model.specs.Trail.{Fault, IsExact};
ghost use Rattle.carrier_model.specs.Tree.{Message, names_of};
ghost use Rattle.carrier_model.specs.Trees.{IsPropList, IsTree};
ghost use Rattle.carrier_model.specs.Values.{Prop};

/// A stream is at most one list of attributes and has at most one first fault, and never both.
pub fn attributes_are_exact()
    ensures { (at : ℕ) (bytes : List ℕ) → IsExact (Attrs at bytes) (AttrsFault at bytes) }
{}

/// Bytes begin with at most one property list and have at most one first fault, and never both.
pub fn property_lists_are_exact()
    ensures { (in_attachment : Bool) (at : ℕ) (bytes : List ℕ) → IsExact (Means (prop_list in_attachment) at bytes) ((prop_list in_attachment).fails at bytes) }
{}

/// The same of the lists of recipients.
pub fn recipient_lists_are_exact()
    ensures { (at : ℕ) (bytes : List ℕ) → IsExact (Means recipient_lists at bytes) (recipient_lists.fails at bytes) }
{}

/// A stream means one message, or has one first fault, and not both, however many levels may lie in it.
pub fn tnef_messages_are_exact()
    ensures { (levels at : ℕ) (bytes : List ℕ) → IsExact ((message_within levels).means at bytes) ((message_within levels).fails at bytes) }
{}

/// What is written for a property list is read as that list, whatever the names are among which its own get their ids.
pub fn canonical_lists_mean_themselves()
    ensures { (in_attachment : Bool) (names : List Name) (at : ℕ) (props : List Prop) → length names ≤ 32000 → IsPropList props → length (list_bytes names props None) < 2 ^ 32 → (prop_list in_attachment).spells at (record { props = props; object = None; passed = [] }) (list_bytes names props None) }
{}

/// The canonical stream of a tree means that tree, with nothing passed over. It means no other, and has no fault.
pub fn canonical_tnef_means_its_tree()
    ensures means { (t : Message) → IsTree t → length (names_of t) ≤ 32000 → length (tnef_of t) ≤ MOST_BYTES → TnefCarrier (tnef_of t) t [] }
    ensures alone { (t other : Message) (passed : List Passed) → IsTree t → length (names_of t) ≤ 32000 → length (tnef_of t) ≤ MOST_BYTES → TnefCarrier (tnef_of t) other passed → (other ≡ t) × (passed ≡ []) }
    ensures faultless { (t : Message) (g : Fault) → IsTree t → length (names_of t) ≤ 32000 → length (tnef_of t) ≤ MOST_BYTES → TnefFault (tnef_of t) g → ⊥ }
{}

/// What a TNEF stream means is such a tree, where it is made of bytes and no longer than the greatest input.
pub fn tnef_carriers_are_trees()
    ensures { (bytes : List ℕ) (t : Message) (passed : List Passed) → AllBytes bytes → length bytes ≤ MOST_BYTES → TnefCarrier bytes t passed → IsTree t }
{}
