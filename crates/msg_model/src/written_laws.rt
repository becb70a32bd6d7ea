//! Laws about .msg files that are written.
ghost use Rattle.std.specs.Prelude.{◌≡◌, ◌≤◌, ℕ, List, [], length, IsTrue};
ghost use Rattle.msg_model.specs.MsgMessage.{MsgCarrier, MsgFault};
ghost use Rattle.msg_model.specs.ReadBack.{HasFewParts};
ghost use Rattle.carrier_model.specs.Sectors.{is_size};
ghost use Rattle.msg_model.specs.WrittenMsg.{msg_in};
ghost use Rattle.carrier_model.specs.Bytes.{MOST_BYTES};
ghost use Rattle.carrier_model.specs.Meanings.{Passed};
ghost use Rattle.carrier_model.specs.Trail.{Fault};
ghost use Rattle.carrier_model.specs.Tree.{Message, names_of};
ghost use Rattle.carrier_model.specs.Trees.{IsTree};

/// The .msg file of a message within the limits, in either version, carries that message, with nothing passed over. It
/// carries no other, and has no fault.
pub fn written_files_carry_their_message()
    ensures carries { (z : ℕ) (t : Message) → IsTrue (is_size z) → IsTree t → length (names_of t) ≤ 32000 → HasFewParts t → length (msg_in z t) ≤ MOST_BYTES → MsgCarrier (msg_in z t) t [] }
    ensures alone { (z : ℕ) (t other : Message) (passed : List Passed) → IsTrue (is_size z) → IsTree t → length (names_of t) ≤ 32000 → HasFewParts t → length (msg_in z t) ≤ MOST_BYTES → MsgCarrier (msg_in z t) other passed → (other ≡ t) × (passed ≡ []) }
    ensures faultless { (z : ℕ) (t : Message) (g : Fault) → IsTrue (is_size z) → IsTree t → length (names_of t) ≤ 32000 → HasFewParts t → length (msg_in z t) ≤ MOST_BYTES → MsgFault (msg_in z t) g → ⊥ }
{}
