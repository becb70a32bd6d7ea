//! The cyclic sums of texts.
ghost use Rattle.std.specs.Prelude.{◌≡◌, ◌/◌, ◌%◌};
ghost use Rattle.msg_model.specs.WrittenNames as written;

use std::marker::Model;

/// The cyclic sums of all bytes, by which two bytes are summed at once.
#[derive(Drop)]
pub(crate) struct ByteSums {
    /// Of each byte.
    alone: [u32; 256],
    /// Of each byte with a zero behind it.
    before_zero: [u32; 256],
}

impl Model for ByteSums {
    ghost use Rattle.msg_nameid.specs.ByteSums.{AreByteSums};

    ghost Value = { Unit {0} };

    ghost view = { λ _. tt };

    ghost invariant = { λ s. AreByteSums s.alone s.before_zero };
}

impl ByteSums {
    pub(crate) fn new() -> ByteSums {
        let mut alone = [0; 256];
        let mut before_zero = [0; 256];
        for byte in 0..256_usize {
            let sum = sum_byte(0, byte as u8);
            alone[byte] = sum;
            before_zero[byte] = sum_byte(sum, 0);
        }
        ByteSums { alone, before_zero }
    }

    /// The cyclic sum of the bytes of units, from 0 and without a complement at the end.
    pub(crate) fn of_units(&self, units: &[u16]) -> u32
        ensures { result ≡ written.cyclic_sum 0 (written.name_units units.now) }
    {
        let mut sum = 0;
        for unit in units {
            sum = self.with_unit(sum, *unit);
        }
        sum
    }

    /// A cyclic sum with the two bytes of a unit more, the lower one first.
    fn with_unit(&self, sum: u32, unit: u16) -> u32
        ensures { result ≡ written.sum_byte (written.sum_byte sum (unit % 256)) (unit / 256) }
    {
        let word = sum ^ u32::from(unit);
        let low = self.before_zero[(word % 256) as usize];
        let high = self.alone[(word / 256 % 256) as usize];
        low ^ high ^ (word / 65536)
    }
}

/// A cyclic sum with one byte more.
fn sum_byte(sum: u32, byte: u8) -> u32
    ensures { result ≡ written.sum_byte sum byte }
{
    let mut state = sum ^ u32::from(byte);
    for _ in 0..8_u32 {
        state = sum_bit(state);
    }
    state
}

/// One bit of a cyclic sum with the reflected polynomial EDB88320.
fn sum_bit(sum: u32) -> u32
    ensures { result ≡ written.sum_bit sum }
{
    if sum % 2 == 0 {
        sum / 2
    } else {
        (sum / 2) ^ 0xEDB8_8320
    }
}
