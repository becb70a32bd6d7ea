//! Numbers of 2, 4 and 8 bytes.
ghost use Rattle.std.specs.Prelude.{◌≡◌, ◌+◌, ◌*◌, ◌<◌, ◌≤◌, ◌^◌, length, take, drop};
ghost use Rattle.carrier_model.specs.Bytes as octets;
ghost use Rattle.carrier_model.specs.Kinds as kinds;
ghost use Rattle.cfb_sectors.specs.Seen.{bytes_of};
ghost use Rattle.prop_values.specs.Kinds.{kind_number};
ghost use Rattle.prop_values.specs.Shapes.{IsWidth};

use crate::entries::Entry;
use carrier_io::{u16_at, u32_at, u64_at};
use cfb_sectors::StreamView;
use prop_values::Kind;

/// The number of a width in bytes at a place of a stream.
#[tactic(auto, using(crate::proofs::NumberForms::number16_le, crate::proofs::NumberForms::number32_le, crate::proofs::NumberForms::number64_le))]
pub fn number_at(view: &StreamView<'_>, at: usize, width: usize) -> u64
    requires width { IsWidth width }
    requires inside { at + width ≤ length (bytes_of view.now) }
    ensures number { result ≡ octets.le_number (take width (drop at (bytes_of view.now))) }
    ensures below { result < 2 ^ (8 * width) }
{
    match width {
        2 => u64::from(view.u16_at(at)),
        4 => u64::from(view.u32_at(at)),
        _ => view.u64_at(at),
    }
}

impl Entry {
    /// The number of a width in bytes at the front of the eight bytes.
    #[tactic(auto, using(crate::proofs::NumberForms::number16_le, crate::proofs::NumberForms::number32_le, crate::proofs::NumberForms::number64_le))]
    fn number(&self, width: usize) -> u64
        requires { IsWidth width }
        ensures number { result ≡ octets.le_number (take width self.now.field) }
        ensures below { result < 2 ^ (8 * width) }
    {
        match width {
            2 => u64::from(u16_at(&self.field, 0)),
            4 => u64::from(u32_at(&self.field, 0)),
            _ => u64_at(&self.field, 0),
        }
    }

    /// The bits of a number of a kind and its width in bytes; a truth value is 0 or 1. [MS-OXCDATA 2.11.1]
    pub fn bits(&self, kind: Kind, width: usize) -> u64
        requires { IsWidth width }
        ensures bits { result ≡ kinds.bits_of (kind_number kind) (take width self.now.field) }
        ensures below { result < 2 ^ (8 * width) }
        ensures truth { kind_number kind ≡ 0x000B → result < 2 }
    {
        let n = self.number(width);
        match kind {
            Kind::Boolean => { if n == 0 { 0 } else { 1 } }
            _ => n,
        }
    }
}
