//! Sizes that the format fixes.

/// How many sectors of the FAT the header lists. [MS-CFB 2.2]
pub const HEADER_DIFAT: u32 = 109;

/// The bytes of the header, without the zeros that fill its sector. [MS-CFB 2.2]
pub const HEADER: u64 = 512;

/// The bytes of a mini sector. [MS-CFB 2.2]
pub const MINI_SECTOR: u64 = 64;

/// A stream of so many bytes or more has sectors of its own. [MS-CFB 2.2]
pub const CUTOFF: u32 = 4096;

/// The bytes of a word of the FAT, the mini FAT and the DIFAT. [MS-CFB 2.3]
pub const WORD: u64 = 4;

/// The bytes of an entry of the directory. [MS-CFB 2.6.1]
pub const ENTRY: u64 = 128;
