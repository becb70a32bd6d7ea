//! Where fields stand, in bytes from the first of what they belong to.

/// The major version, of 2 bytes [MS-CFB 2.2].
pub(crate) const MAJOR: usize = 26;

/// The byte order, of 2 bytes [MS-CFB 2.2].
pub(crate) const BYTE_ORDER: usize = 28;

/// The power of two that a sector's size is, of 2 bytes [MS-CFB 2.2].
pub(crate) const SECTOR_SHIFT: usize = 30;

/// The power of two that a mini sector's size is, of 2 bytes [MS-CFB 2.2].
pub(crate) const MINI_SHIFT: usize = 32;

/// How many sectors the FAT has [MS-CFB 2.2].
pub(crate) const FAT_COUNT: usize = 44;

/// The first sector of the directory [MS-CFB 2.2].
pub(crate) const DIRECTORY: usize = 48;

/// How many bytes a stream has at least whose chain is in the FAT [MS-CFB 2.2].
pub(crate) const CUTOFF: usize = 56;

/// The first sector of the mini FAT [MS-CFB 2.2].
pub(crate) const MINI_FAT: usize = 60;

/// The first DIFAT sector [MS-CFB 2.2].
pub(crate) const DIFAT: usize = 68;

/// The first of the DIFAT's words in the header [MS-CFB 2.2].
pub(crate) const FAT_NAMES: usize = 76;

/// How many words of the DIFAT are in the header [MS-CFB 2.2].
pub(crate) const FAT_NAMED: u32 = 109;

/// How many bytes a directory entry has [MS-CFB 2.6.1].
pub(crate) const ENTRY: u32 = 128;

/// The length of an entry's name with its null, of 2 bytes [MS-CFB 2.6.1].
pub const NAME_LENGTH: usize = 64;

/// An entry's object type, of 1 byte [MS-CFB 2.6.1].
pub const OBJECT_TYPE: usize = 66;

/// An entry's left sibling [MS-CFB 2.6.1].
pub const LEFT: usize = 68;

/// An entry's right sibling [MS-CFB 2.6.1].
pub const RIGHT: usize = 72;

/// The child of a storage's entry [MS-CFB 2.6.1].
pub const CHILD: usize = 76;

/// An entry's CLSID, of 16 bytes [MS-CFB 2.6.1].
pub(crate) const CLASS: usize = 80;

/// The first sector of an entry's stream [MS-CFB 2.6.1].
pub(crate) const START: usize = 116;

/// The size of an entry's stream, of 8 bytes [MS-CFB 2.6.1].
pub const SIZE: usize = 120;

/// The object type of a storage [MS-CFB 2.6.1].
pub const STORAGE: u8 = 1;

/// The object type of a stream [MS-CFB 2.6.1].
pub const STREAM: u8 = 2;

/// The object type of the root [MS-CFB 2.6.1].
pub const ROOT: u8 = 5;
