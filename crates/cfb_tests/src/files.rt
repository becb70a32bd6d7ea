//! The smallest files of a message, word by word.
use std::alloc::{AllocError, Global};

/// A word that is not used.
pub const FREE: u32 = 0xFFFF_FFFF;

/// The end of a chain.
pub const END: u32 = 0xFFFF_FFFE;

/// A place, and the numbers from there on, each in four bytes.
pub type Row<'w> = (usize, &'w [u32]);

/// Where the parts of a message without properties lie in its file.
pub struct Layout {
    /// Places, and the byte that is everywhere before each of them.
    pub grounds: &'static [(usize, u8)],
    /// The header, the table, the mini FAT, and the root's fields of the mini stream.
    pub rows: [Row<'static>; 6],
    /// Where the directory begins, and how many of its entries are not used.
    pub directory: usize,
    pub unused: usize,
}

/// 3,072 bytes: the table in sector 0, the directory in 1 and 2, the mini FAT in 3, the mini stream in 4.
pub const THREE: Layout = Layout {
    grounds: &[(80, 0), (1024, 0xFF), (2048, 0), (2560, 0xFF), (3072, 0)],
    rows: [
        // The signature.
        (0, &[0xE011_CFD0, 0xE11A_B1A1]),
        // The versions, the order of bytes and the sector's power of two, and that of the mini sector.
        (24, &[0x0003_003E, 0x0009_FFFE, 6]),
        // How many sectors the table has, where the directory begins, 0, the least long stream, where the mini FAT
        // begins and how many sectors it has, the same of the list of the table, and its first sector.
        (44, &[1, 1, 0, 4096, 3, 1, END, 0, 0]),
        // The table: itself, the directory's two sectors, the mini FAT and the mini stream.
        (512, &[0xFFFF_FFFD, 2, END, END, END]),
        // The mini FAT: the one mini sector.
        (2048, &[END]),
        // Where the mini stream begins, and its size.
        (1140, &[4, 64]),
    ],
    directory: 1024,
    unused: 2,
};

/// 20,480 bytes: the table in sector 0, the directory in 1, the mini FAT in 2, the mini stream in 3.
pub const FOUR: Layout = Layout {
    grounds: &[
        (80, 0),
        (512, 0xFF),
        (4096, 0),
        (8192, 0xFF),
        (12_288, 0),
        (16_384, 0xFF),
        (20_480, 0),
    ],
    rows: [
        (0, &[0xE011_CFD0, 0xE11A_B1A1]),
        (24, &[0x0004_003E, 0x000C_FFFE, 6]),
        // As above, behind how many sectors the directory has.
        (40, &[1, 1, 1, 0, 4096, 2, 1, END, 0, 0]),
        // The table: itself, the directory, the mini FAT and the mini stream.
        (4096, &[0xFFFF_FFFD, END, END, END]),
        (12_288, &[END]),
        (8308, &[3, 64]),
    ],
    directory: 8192,
    unused: 26,
};

/// The entries of a directory, each with its name's length, kind and colour, and its left, right and child link. The root
/// has a storage, entry 1, with three empty streams, 2 to 4, and a stream of 32 bytes, entry 5.
const ENTRIES: [Row<'static>; 11] = [
    (64, &[0x0105_0016, FREE, FREE, 1]),
    // The root's class.
    (80, &[0x0002_0D0B, 0, 0xC0, 0x4600_0000]),
    (192, &[0x0101_0028, FREE, 5, 3]),
    (320, &[0x0102_002A, FREE, FREE, FREE]),
    (448, &[0x0102_002A, 2, 4, FREE]),
    (576, &[0x0102_002A, FREE, FREE, FREE]),
    (704, &[0x0102_0030, FREE, FREE, FREE]),
    // The starts of the empty streams, and the size of the other.
    (372, &[END]),
    (500, &[END]),
    (628, &[END]),
    (760, &[32]),
];

/// The names of the entries.
const NAMES: [(usize, &str); 6] = [
    (0, "Root Entry"),
    (128, "__nameid_version1.0"),
    (256, "__substg1.0_00020102"),
    (384, "__substg1.0_00030102"),
    (512, "__substg1.0_00040102"),
    (640, "__properties_version1.0"),
];

/// Writes a number, where there are four bytes for it.
pub fn put_word(slot: &mut [u8], word: u32) {
    if slot.len() == 4 {
        slot.copy_from_slice(&word.to_le_bytes());
    }
}

/// Writes numbers from a place on.
pub fn put(file: &mut [u8], at: usize, words: &[u32]) {
    if at < file.len() {
        for (slot, word) in file[at..].chunks_mut(4).zip(words) {
            put_word(slot, *word);
        }
    }
}

/// Writes the words of each row at its offset.
pub fn put_rows(file: &mut [u8], rows: &[Row<'_>]) {
    for (at, words) in rows {
        put(file, *at, words);
    }
}

/// Writes a name, each character in two bytes.
fn put_name(file: &mut [u8], at: usize, name: &str) {
    if at < file.len() {
        for (slot, byte) in file[at..].iter_mut().step_by(2).zip(name.as_bytes()) {
            *slot = *byte;
        }
    }
}

/// Writes the names of entries, each at its offset.
pub fn put_names(directory: &mut [u8], names: &[(usize, &str)]) {
    for (at, name) in names {
        put_name(directory, *at, name);
    }
}

/// So many entries that are not used, behind entry 5.
fn put_unused(directory: &mut [u8], count: usize) {
    for entry in directory.chunks_mut(128).skip(6).take(count) {
        put(entry, 68, &[FREE, FREE, FREE]);
    }
}

/// Bytes that have one value up to each of these places, with these numbers.
pub fn filled(
    alloc: Global,
    grounds: &[(usize, u8)],
    rows: &[Row<'_>],
) -> Result<Vec<u8>, AllocError> {
    let mut file = Vec::new(alloc);
    for (end, byte) in grounds {
        file.resize(*end, *byte)?;
    }
    put_rows(&mut file, rows);
    Ok(file)
}

/// The file of a layout, after changes.
pub fn file_of(alloc: Global, layout: &Layout, changes: &[Row<'_>]) -> Result<Vec<u8>, AllocError> {
    let mut file = filled(alloc, layout.grounds, &layout.rows)?;
    if layout.directory < file.len() {
        put_rows(&mut file[layout.directory..], &ENTRIES);
        put_names(&mut file[layout.directory..], &NAMES);
        put_unused(&mut file[layout.directory..], layout.unused);
    }
    put_rows(&mut file, changes);
    Ok(file)
}
