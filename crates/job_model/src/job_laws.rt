//! Laws about what jobs take, refuse and write.
ghost use Rattle.std.specs.Prelude.{◌≡◌, ℕ, List, [], None};
ghost use Rattle.job_model.specs.Acceptance.{Accepts, FaultOf, Carries};
ghost use Rattle.job_model.specs.Commands.{to_msg, to_msg4, to_tnef, wrap};
ghost use Rattle.msg_model.specs.MsgMessage.{MsgCarrier};
ghost use Rattle.job_model.specs.Targets.{IsResult, passed_limit};
ghost use Rattle.json_model.specs.JsonMeanings.{TextMeansTree};
ghost use Rattle.json_model.specs.MessageForms.{json_text};
ghost use Rattle.tnef_model.specs.TnefCanonical.{tnef_of};
ghost use Rattle.tnef_model.specs.TnefMessage.{TnefCarrier};
ghost use Rattle.carrier_model.specs.Bytes.{AllBytes};
ghost use Rattle.carrier_model.specs.Meanings.{Meaning};
ghost use Rattle.carrier_model.specs.Trail.{IsExact};
ghost use Rattle.carrier_model.specs.Tree.{Message};
ghost use Rattle.carrier_model.specs.Trees.{IsTree};
ghost use Rattle.msg_model.specs.WrittenMsg.{msg_of, msg4_of};

/// Input is accepted as one message, or refused for one fault, and not both, by each job that takes a message's own
/// bytes.
pub fn jobs_are_exact()
    ensures to_msg { (b : List ℕ) → IsExact (Accepts to_msg b) (FaultOf to_msg b) }
    ensures to_msg4 { (b : List ℕ) → IsExact (Accepts to_msg4 b) (FaultOf to_msg4 b) }
    ensures to_tnef { (b : List ℕ) → IsExact (Accepts to_tnef b) (FaultOf to_tnef b) }
    ensures wrap { (b : List ℕ) → IsExact (Accepts wrap b) (FaultOf wrap b) }
{}

/// A tree that passes no limit of a TNEF stream is carried by its canonical stream.
pub fn trees_within_the_limits_are_carried()
    ensures { (t : Message) (b : List ℕ) → IsTree t → passed_limit to_tnef t b ≡ None → TnefCarrier (tnef_of t) t [] }
{}

/// A tree that passes no limit of a .msg file, of version 3 or of version 4, is carried by that file.
pub fn files_within_the_limits_carry_their_message()
    ensures version3 { (t : Message) (b : List ℕ) → IsTree t → passed_limit to_msg t b ≡ None → MsgCarrier (msg_of t) t [] }
    ensures version4 { (t : Message) (b : List ℕ) → IsTree t → passed_limit to_msg4 t b ≡ None → MsgCarrier (msg4_of t) t [] }
{}

/// What is written for a message that was accepted, where it passes no limit, carries that message with nothing passed over,
/// and no other.
pub fn results_carry_their_message()
    ensures to_msg { (b : List ℕ) (m : Meaning) → AllBytes b → Accepts to_msg b m → passed_limit to_msg m.message b ≡ None → Carries to_msg (msg_of m.message) m }
    ensures to_msg4 { (b : List ℕ) (m : Meaning) → AllBytes b → Accepts to_msg4 b m → passed_limit to_msg4 m.message b ≡ None → Carries to_msg4 (msg4_of m.message) m }
    ensures to_tnef { (b : List ℕ) (m : Meaning) → AllBytes b → Accepts to_tnef b m → passed_limit to_tnef m.message b ≡ None → Carries to_tnef (tnef_of m.message) m }
{}

/// What `from-json` writes of the text that `to-json` wrote of a message is what `to-msg` writes of the message: the text
/// means the message, and no other.
pub fn json_texts_give_the_file()
    ensures { (b w v : List ℕ) (t u : Message) → TextMeansTree (json_text t) t → TextMeansTree (json_text t) u → IsResult to_msg u (json_text t) w → IsResult to_msg t b v → w ≡ v }
{}
