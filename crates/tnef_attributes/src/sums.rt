//! The checksum of an attribute.
ghost use Rattle.std.specs.Prelude.{◌≡◌};
ghost use Rattle.carrier_model.specs.Bytes as sums;

use carrier_io::sum_of;

/// The sum of the bytes modulo 65,536, which stands behind each attribute (MS-OXTNEF).
pub fn sum16(bytes: &[u8]) -> u16
    ensures { result ≡ sums.sum16 bytes.now }
{
    sum_of(bytes)
}
