//! Laws about what jobs take and write.
ghost use Rattle.std.specs.Prelude.{◌≡◌, ◌≢◌, ◌↔◌, ℕ, List, None};
ghost use Rattle.carrier_model.specs.Bytes.{AllBytes};
ghost use Rattle.carrier_model.specs.Meanings.{Meaning};
ghost use Rattle.carrier_model.specs.Trail.{IsExact};
ghost use Rattle.job_model.specs.Acceptance.{Accepts, FaultOf, Carries, kept};
ghost use Rattle.job_model.specs.Commands.{Job, to_tnef, wrap, unwrap};
ghost use Rattle.job_model.specs.Targets.{IsResult, passed_limit};
ghost use Rattle.mail_model.specs.EnvelopeText.{envelope_of};
ghost use Rattle.tnef_model.specs.TnefCanonical.{tnef_of};
ghost use Rattle.translate_core.specs.Jobs.{MakesAnew};

use mime_envelope::envelopes_are_exact;

/// Input is accepted as one message, or refused for one fault, and not both, by each job.
pub fn inputs_are_exact()
    ensures { (job : Job) (b : List ℕ) → IsExact (Accepts job b) (FaultOf job b) }
{
    envelopes_are_exact();
}

/// What a job writes for a message that it accepted, where it passes no limit, carries that message, and no other.
pub fn outputs_carry_their_message()
    ensures { (job : Job) (b w : List ℕ) (m : Meaning) → AllBytes b → Accepts job b m → passed_limit job m.message b ≡ None → IsResult job m.message b w → Carries job w m }
{
    envelopes_are_exact();
}

/// Two inputs in whatever form, with whatever ids and layout, give equal bytes by a job that makes them anew, exactly where
/// they carry the same message.
pub fn equal_outputs_are_of_one_message()
    ensures { (job : Job) (b c v w : List ℕ) (m n : Meaning) → MakesAnew job → AllBytes b → AllBytes c → Accepts job b m → Accepts job c n → passed_limit job m.message b ≡ None → passed_limit job n.message c ≡ None → IsResult job m.message b v → IsResult job n.message c w → (v ≡ w) ↔ (m.message ≡ n.message) }
{
    envelopes_are_exact();
}

/// The stream that is written for a message is taken as that message by each job but the one that takes mails, and the mail
/// that is written for a stream is taken by that one.
pub fn outputs_are_taken_on()
    ensures streams { (next : Job) (b : List ℕ) (m : Meaning) → next ≢ unwrap → AllBytes b → Accepts to_tnef b m → passed_limit to_tnef m.message b ≡ None → Accepts next (tnef_of m.message) (kept to_tnef m) }
    ensures mails { (b : List ℕ) (m : Meaning) → AllBytes b → Accepts wrap b m → passed_limit wrap m.message b ≡ None → Accepts unwrap (envelope_of b) m }
{
    envelopes_are_exact();
}
