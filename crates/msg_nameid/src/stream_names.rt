//! Names of streams.
ghost use Rattle.std.specs.Prelude.{◌≡◌};
ghost use Rattle.std.specs.Str.{IsAscii};
ghost use Rattle.std.specs.String.{IsUtf16Of};
ghost use Rattle.msg_model.specs.StreamNames as plain;

use prop_names::upper_digits8;
use std::str;

/// The name of the stream of a tag. [MS-OXMSG 2.1.3]
#[tactic(auto, using(msg_model::proofs::AsciiNames::value_ascii))]
pub fn value_name(tag: u32) -> [u8; 20]
    ensures name { result ≡ plain.value_name tag }
    ensures ascii { IsAscii result }
{
    let mut name = *b"__substg1.0_00000000";
    name[12..].copy_from_slice(&upper_digits8(tag));
    name
}

/// The text of ASCII characters.
pub fn text_of(name: &[u8]) -> &str
    requires { IsAscii name.now }
    ensures bytes { result.now ≡ name.now }
    ensures units { IsUtf16Of name.now result.now }
{
    match str::from_utf8(name) {
        Ok(text) => text,
        Err(_) => unreachable!(),
    }
}
