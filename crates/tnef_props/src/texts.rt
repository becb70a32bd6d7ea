//! Texts and their nulls.
ghost use Rattle.std.specs.Prelude.{◌≡◌, IfOk, IfErr, nat_eq};
ghost use Rattle.tnef_model.specs.TnefLists as lists;
ghost use Rattle.carrier_model.specs.Bytes as octets;
ghost use Rattle.carrier_model.specs.Kinds as kinds;
ghost use Rattle.prop_values.specs.Kinds.{kind_number};
ghost use Rattle.tnef_props.specs.Steps.{Takes, Refuses};

use crate::fields::sized;
use crate::rest::Rest;
use carrier_io::Stop;
use prop_values::Kind;

/// Whether the size of a text of the kind is even.
fn is_even(kind: Kind) -> bool
    ensures { result ≡ nat_eq (kind_number kind) 0x001F }
{
    match kind {
        Kind::String => true,
        _ => false,
    }
}

/// The bytes without the last n of them, where these are zero.
pub fn without_null<'a>(bytes: &'a [u8], n: usize) -> &'a [u8]
    ensures { result.now ≡ kinds.without_null n bytes.entry.now }
{
    if bytes.len() < n {
        return bytes;
    }
    let (front, end) = bytes.split_at(bytes.len() - n);
    if is_zero(end) { front } else { bytes }
}

/// Whether all bytes are zero.
fn is_zero(bytes: &[u8]) -> bool
    ensures { result ≡ nat_eq (octets.le_number bytes.now) 0 }
{
    for b in bytes {
        if *b != 0 {
            return false;
        }
    }
    true
}

/// A text without its null, or bytes.
#[tactic(auto, unfolding(tnef_model::specs::TnefLists::text))]
pub fn text<'a>(from: Rest<'a>, kind: Kind) -> Result<(&'a [u8], Rest<'a>), Stop>
    ensures found { IfOk result (λ x. Takes (lists.text (kind_number kind)) from.entry x.0.now x.1) }
    ensures fault { IfErr result (Refuses (lists.text (kind_number kind)) from.entry) }
{
    let (object, rest) = sized(from, is_even(kind), 0)?;
    Ok((without_null(object.bytes, kind.null_size()), rest))
}
