//! Reading an envelope.
ghost use Rattle.std.specs.Prelude.{◌≡◌, ◌+◌, ◌<◌, ◌≤◌, ◌^◌, ◌||◌, length, IfOk};
ghost use Rattle.std.specs.List.{list_all};
ghost use Rattle.carrier_io.specs.Reads.{Gives, Reads};
ghost use Rattle.carrier_io.specs.Reasons.{refusal};
ghost use Rattle.mail_model.specs.Envelope as envelope;
ghost use Rattle.mime_envelope.specs.Parts.{part_view, coded_view};

use crate::body::{decode_body, is_skipped};
use crate::part::Part;
use crate::search::search;
use crate::text::is_word;
use carrier_io::{Fault, Reason, Stop};
use std::alloc::Global;

/// How many multiparts may stand inside each other.
const MOST_MULTIPARTS: u8 = 16;

/// The bytes that the first TNEF part of an envelope carries (RFC 2045, RFC 2046), or the envelope's first fault.
pub fn payload(alloc: Global, bytes: &[u8]) -> Result<Vec<u8>, Stop>
    ensures value { Reads (λ v. v.items) result (envelope.Envelope bytes.now) (envelope.EnvelopeFault bytes.now) }
    ensures short { IfOk result (λ v. length v.items ≤ length bytes.now) }
{
    let part = coded_part(alloc, bytes)?;
    match decode_body(alloc, part.body)? {
        Some(payload) => Ok(payload),
        None => Err(Stop::Fault(Fault {
            reason: Reason::BadPadding,
            offset: part.place + part.body.len() as u64,
        })),
    }
}

/// The first TNEF part; its body is base64 text.
fn coded_part<'a>(alloc: Global, bytes: &'a [u8]) -> Result<Part<'a>, Stop>
    ensures value { Gives coded_view result (envelope.envelope_text bytes.now) }
    ensures within { IfOk result (λ p. p.place + length p.body.now ≤ length bytes.now) }
{
    let Some(part) = search(alloc, MOST_MULTIPARTS, 0, bytes)? else {
        return Err(Stop::Fault(Fault {
            reason: Reason::NoTnefPart,
            offset: 0,
        }));
    };
    test_encoding(&part)?;
    test_characters(part.place, part.body)?;
    Ok(part)
}

/// Refuses a part whose encoding isn't base64: NotBase64 at the field's line, or at the body where there is none.
fn test_encoding(part: &Part) -> Result<(), Fault>
    ensures { envelope.bad_encoding (part_view part.now) ≡ refusal result }
{
    match &part.encoding {
        None => Err(Fault {
            reason: Reason::NotBase64,
            offset: part.place,
        }),
        Some(field) => {
            if is_word(b"base64", &field.value) {
                Ok(())
            } else {
                Err(Fault {
                    reason: Reason::NotBase64,
                    offset: field.at,
                })
            }
        }
    }
}

/// Whether it may stand in base64 text.
fn is_character(byte: u8) -> bool
    ensures { result ≡ envelope.is_character byte }
{
    matches!(byte, b'A'..=b'Z' | b'a'..=b'z' | b'0'..=b'9' | b'+' | b'/' | b'=')
}

/// Whether all bytes of a body are base64 characters or skipped. It looks at each, so that many are looked at together.
fn is_text(body: &[u8]) -> bool
    ensures { result ≡ list_all (λ c. envelope.is_skipped c || envelope.is_character c) body.now }
{
    let mut good = true;
    for byte in body {
        good &= is_skipped(*byte) | is_character(*byte);
    }
    good
}

/// Refuses a body at an offset with a byte that is neither a base64 character nor skipped: BadBase64 at the first.
fn test_characters(at: u64, body: &[u8]) -> Result<(), Fault>
    requires { at + length body.now < 2 ^ 64 }
    ensures { envelope.bad_character at body.now ≡ refusal result }
{
    if is_text(body) {
        return Ok(());
    }
    for (i, byte) in body.iter().enumerate() {
        if !is_skipped(*byte) && !is_character(*byte) {
            return Err(Fault {
                reason: Reason::BadBase64,
                offset: at + i as u64,
            });
        }
    }
    Ok(())
}
