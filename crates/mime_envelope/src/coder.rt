//! base64 with the standard alphabet and full padding.
ghost use Rattle.std.specs.Prelude.{◌≡◌, ◌+◌, ◌*◌, ◌/◌, ◌≤◌, take, length, IfOk};
ghost use Rattle.mail_model.specs.Base64.{base64_text};
ghost use Rattle.mime_envelope.specs.Engine.{IsStandard};
ghost use Rattle.mime_envelope.specs.Parts.{IsPiece};

use base64::alphabet::Alphabet;
use base64::engine::general_purpose::{GeneralPurpose, GeneralPurposeConfig};
use carrier_io::NoMemory;

/// How many characters are decoded together, a whole number of groups of four.
pub const PIECE: usize = 4096;

/// Codes and decodes base64.
#[derive(Clone, Copy, Debug)]
pub struct Coder {
    engine: GeneralPurpose,
    ghost standard: { IsStandard engine },
}

impl Coder {
    /// A coder of the standard alphabet. [RFC 2045 6.8]
    pub fn new() -> Coder {
        let Ok(alphabet) = Alphabet::new(
            "ABCDEFGHIJKLMNOPQRSTUVWXYZabcdefghijklmnopqrstuvwxyz0123456789+/",
        ) else {
            unreachable!();
        };
        Coder {
            engine: GeneralPurpose::new(&alphabet, GeneralPurposeConfig::new()),
        }
    }

    /// Codes up to 57 bytes into the front of a line, and says how many characters they take.
    pub fn encode_line(&self, line: &[u8], text: &mut [u8]) -> usize
        requires few { length line.now ≤ 57 }
        requires room { 76 ≤ length text.old }
        ensures size { result ≡ (length line.now + 2) / 3 * 4 }
        ensures text { take result text.new ≡ base64_text line.now }
    {
        let Ok(size) = self.engine.encode_slice(line, text) else {
            unreachable!();
        };
        size
    }

    /// Appends the bytes that a piece of a text codes, and says whether it codes any there.
    pub fn decode_piece(&self, piece: &[u8], payload: &mut Vec<u8>) -> Result<bool, NoMemory>
        requires { length piece.now ≤ 4096 }
        ensures { IfOk result (λ good. IsPiece good payload.old.items piece.now payload.new.items) }
    {
        if piece.is_empty() {
            return Ok(true);
        }
        // Nothing stands behind padding.
        if payload.len() % 3 != 0 {
            return Ok(false);
        }
        let mut bytes = [0u8; PIECE / 4 * 3];
        let Ok(size) = self.engine.decode_slice_unchecked(piece, &mut bytes) else {
            return Ok(false);
        };
        payload.extend_from_slice(&bytes[..size])?;
        Ok(true)
    }
}
