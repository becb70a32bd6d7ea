//! Hexadecimal digits.
ghost use Rattle.std.specs.Prelude.{◌≡◌, ◌<◌, ◌%◌};
ghost use Rattle.carrier_model.specs.KeyTexts.{hex_digit, hex_digits, lower, upper};

/// The upper-case characters of the digits.
static UPPER: [u8; 16] = *b"0123456789ABCDEF";

/// The lower-case characters of the digits.
static LOWER: [u8; 16] = *b"0123456789abcdef";

/// The upper-case character of a digit.
fn upper_digit(digit: u32) -> u8
    requires { digit < 16 }
    ensures { result ≡ hex_digit upper digit }
{
    UPPER[digit as usize]
}

/// The lower-case character of a digit.
fn lower_digit(digit: u32) -> u8
    requires { digit < 16 }
    ensures { result ≡ hex_digit lower digit }
{
    LOWER[digit as usize]
}

/// Two lower-case digits.
pub fn lower_digits2(n: u8) -> [u8; 2]
    ensures { result ≡ hex_digits lower 2 n }
{
    let n = u32::from(n);
    [lower_digit(n / 16 % 16), lower_digit(n % 16)]
}

/// Two upper-case digits.
pub fn upper_digits2(n: u8) -> [u8; 2]
    ensures { result ≡ hex_digits upper 2 n }
{
    let n = u32::from(n);
    [upper_digit(n / 16 % 16), upper_digit(n % 16)]
}

/// Four upper-case digits.
pub fn upper_digits4(n: u16) -> [u8; 4]
    ensures { result ≡ hex_digits upper 4 n }
{
    let n = u32::from(n);
    [
        upper_digit(n / 16 / 16 / 16 % 16),
        upper_digit(n / 16 / 16 % 16),
        upper_digit(n / 16 % 16),
        upper_digit(n % 16),
    ]
}

/// Eight upper-case digits.
pub fn upper_digits8(n: u32) -> [u8; 8]
    ensures { result ≡ hex_digits upper 8 n }
{
    let high = n / 16 / 16 / 16 / 16;
    [
        upper_digit(high / 16 / 16 / 16 % 16),
        upper_digit(high / 16 / 16 % 16),
        upper_digit(high / 16 % 16),
        upper_digit(high % 16),
        upper_digit(n / 16 / 16 / 16 % 16),
        upper_digit(n / 16 / 16 % 16),
        upper_digit(n / 16 % 16),
        upper_digit(n % 16),
    ]
}

/// The last upper-case digit.
fn last_digit(n: u64) -> u8
    ensures { result ≡ hex_digit upper (n % 16) }
{
    upper_digit((n % 16) as u32)
}

/// Sixteen upper-case digits.
#[inline(always)]
pub fn upper_digits16(n: u64) -> [u8; 16]
    ensures { result ≡ hex_digits upper 16 n }
{
    let third = n / 16 / 16 / 16 / 16;
    let second = third / 16 / 16 / 16 / 16;
    let first = second / 16 / 16 / 16 / 16;
    [
        last_digit(first / 16 / 16 / 16),
        last_digit(first / 16 / 16),
        last_digit(first / 16),
        last_digit(first),
        last_digit(second / 16 / 16 / 16),
        last_digit(second / 16 / 16),
        last_digit(second / 16),
        last_digit(second),
        last_digit(third / 16 / 16 / 16),
        last_digit(third / 16 / 16),
        last_digit(third / 16),
        last_digit(third),
        last_digit(n / 16 / 16 / 16),
        last_digit(n / 16 / 16),
        last_digit(n / 16),
        last_digit(n),
    ]
}
