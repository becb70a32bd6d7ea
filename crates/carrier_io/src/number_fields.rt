//! Little-endian number fields.
ghost use Rattle.std.specs.Prelude.{◌≡◌, ◌+◌, ◌%◌, ◌≤◌, ◌<◌, length, take, drop};
ghost use Rattle.std.specs.Int.{w16, w32, w64, from_le_bytes, to_le_bytes};

/// The number in the two bytes at a place.
pub fn u16_at(bytes: &[u8], at: usize) -> u16
    requires { at + 2 ≤ length bytes.now }
    ensures { result ≡ from_le_bytes w16 (take 2 (drop at bytes.now)) }
{
    u16::from_le_bytes([bytes[at], bytes[at + 1]])
}

/// The number in the four bytes at a place.
pub fn u32_at(bytes: &[u8], at: usize) -> u32
    requires { at + 4 ≤ length bytes.now }
    ensures { result ≡ from_le_bytes w32 (take 4 (drop at bytes.now)) }
{
    u32::from_le_bytes([bytes[at], bytes[at + 1], bytes[at + 2], bytes[at + 3]])
}

/// The number in the eight bytes at a place.
pub fn u64_at(bytes: &[u8], at: usize) -> u64
    requires { at + 8 ≤ length bytes.now }
    ensures { result ≡ from_le_bytes w64 (take 8 (drop at bytes.now)) }
{
    u64::from_le_bytes([
        bytes[at],
        bytes[at + 1],
        bytes[at + 2],
        bytes[at + 3],
        bytes[at + 4],
        bytes[at + 5],
        bytes[at + 6],
        bytes[at + 7],
    ])
}

/// A number in two bytes.
pub fn le16(n: u16) -> [u8; 2]
    ensures { result ≡ to_le_bytes w16 n }
{
    n.to_le_bytes()
}

/// A number in four bytes.
pub fn le32(n: u32) -> [u8; 4]
    ensures { result ≡ to_le_bytes w32 n }
{
    n.to_le_bytes()
}

/// A number in eight bytes.
pub fn le64(n: u64) -> [u8; 8]
    ensures { result ≡ to_le_bytes w64 n }
{
    n.to_le_bytes()
}

/// How many bytes are missing to a multiple of four: the least number that makes n one.
pub fn pad4(n: u64) -> u64
    ensures multiple { (n + result) % 4 ≡ 0 }
    ensures least { result < 4 }
{
    (4 - n % 4) % 4
}
