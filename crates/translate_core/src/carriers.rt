//! How bytes begin.
ghost use Rattle.std.specs.Prelude.{◌≡◌};
ghost use Rattle.job_model.specs.Signatures as plain;
ghost use Rattle.translate_core.specs.Inputs.{front_of};

use carrier_io::u32_at;

/// The forms that carry a message.
#[derive(Clone, Copy, Debug, PartialEq, Eq)]
pub enum Carrier {
    /// A .msg file. [MS-OXMSG]
    Msg,
    /// A TNEF stream. [MS-OXTNEF]
    Tnef,
    /// A mail with a TNEF stream in it. [RFC 2045, RFC 2046]
    Envelope,
}

/// Whether the bytes begin as a compound file. [MS-CFB 2.2]
pub(crate) fn is_compound(bytes: &[u8]) -> bool
    ensures { result ≡ plain.is_compound bytes.now }
{
    bytes.len() >= 8 && u32_at(bytes, 0) == 0xE011_CFD0 && u32_at(bytes, 4) == 0xE11A_B1A1
}

/// Whether the bytes begin as a TNEF stream. [MS-OXTNEF 2.1.3]
pub(crate) fn is_signed(bytes: &[u8]) -> bool
    ensures { result ≡ plain.is_signed bytes.now }
{
    bytes.len() >= 4 && u32_at(bytes, 0) == 0x223E_9F78
}

/// The form whose signature stands at the front of the bytes: a .msg file or a TNEF stream. None where neither does.
/// [MS-CFB 2.2, MS-OXTNEF 2.1.3]
pub fn carrier_of(bytes: &[u8]) -> Option<Carrier>
    ensures { result ≡ front_of (plain.is_compound bytes.now) (plain.is_signed bytes.now) }
{
    if is_compound(bytes) {
        return Some(Carrier::Msg);
    }
    if is_signed(bytes) {
        return Some(Carrier::Tnef);
    }
    None
}
