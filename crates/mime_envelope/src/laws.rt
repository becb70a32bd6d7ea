//! Laws about envelopes.
ghost use Rattle.std.specs.Prelude.{◌≡◌, ℕ, List};
ghost use Rattle.carrier_model.specs.Bytes.{AllBytes};
ghost use Rattle.mail_model.specs.Envelope.{Envelope};
ghost use Rattle.mail_model.specs.EnvelopeText.{envelope_of};

use crate::coder::Coder;

/// The canonical envelope of bytes is an envelope of these bytes, and of no others.
pub fn envelopes_are_exact()
    ensures carried { (bytes : List ℕ) → AllBytes bytes → Envelope (envelope_of bytes) bytes }
    ensures only { (bytes other : List ℕ) → AllBytes bytes → Envelope (envelope_of bytes) other → other ≡ bytes }
{
    let _coder = Coder::new();
}
