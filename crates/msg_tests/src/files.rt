//! Small compound files, and what is in a list of files.
use carrier_io::{Blob, Stop, Walk};
use cfb_directory::{Files, open_files};
use cfb_list::{ContentView, File, KindView, NameView, numbered_units};
use std::alloc::{AllocError, Global};

/// A link or a sector that is none.
pub const FREE: u32 = 0xFFFF_FFFF;

/// The end of a chain.
pub const END: u32 = 0xFFFF_FFFE;

/// A place in a file, and the numbers from there on, each in four bytes.
pub type Words<'w> = (usize, &'w [u32]);

/// A place in a file, and the name that stands there.
pub type Name = (usize, &'static str);

/// What the header says, the table of sectors, and the root: the table is in sector 0, the directory in 1 and 2, the mini
/// FAT in 3, the mini stream in 4.
const TABLES: [Words<'static>; 6] = [
    (0, &[0xE011_CFD0, 0xE11A_B1A1]),
    (24, &[0x0003_003E, 0x0009_FFFE, 6]),
    (44, &[1, 1, 0, 4096, 3, 0, END]),
    (512, &[0xFFFF_FFFD, 2, END, END, END]),
    (1088, &[0x0105_0016, FREE, FREE, 1]),
    (1140, &[4]),
];

/// Writes bytes from a place on, each with another behind it that stays.
fn put_name(file: &mut [u8], at: usize, name: &str) {
    for (slot, byte) in file.iter_mut().skip(at).step_by(2).zip(name.as_bytes()) {
        *slot = *byte;
    }
}

/// Writes a number in four bytes.
fn put_word(file: &mut [u8], at: usize, word: u32) {
    for (slot, byte) in file.iter_mut().skip(at).zip(word.to_le_bytes()) {
        *slot = byte;
    }
}

/// Writes numbers from a place on.
pub fn put(file: &mut [u8], at: usize, words: &[u32]) {
    let mut at = at;
    for word in words {
        put_word(file, at, *word);
        at = at.saturating_add(4);
    }
}

fn put_rows(file: &mut [u8], rows: &[Words<'_>]) {
    for (at, words) in rows {
        put(file, *at, *words);
    }
}

/// A file of 3,072 bytes with the tables, these numbers and these names.
pub fn file_of(alloc: Global, rows: &[Words<'_>], names: &[Name]) -> Result<Vec<u8>, AllocError> {
    let mut file = vec![in alloc; 0; 3072]?;
    put_rows(&mut file, &TABLES);
    put_rows(&mut file, rows);
    for (at, name) in names {
        put_name(&mut file, *at, *name);
    }
    Ok(file)
}

/// The files of such a file.
pub fn opened(alloc: Global, bytes: &[u8]) -> Result<Files<'_>, Stop> {
    if bytes.len() > 3072 {
        return Err(Stop::NoMemory);
    }
    open_files(alloc, bytes, &mut Walk::new())
}

/// What a stream has: bytes of its own, or those of a value with so many zeros behind them.
pub type Held<'h> = (&'h [u8], Option<u8>);

/// Whether a name is this one.
fn is_name(view: NameView<'_>, name: &str) -> bool {
    match view {
        NameView::Whole(units) => name.encode_utf16().eq(units.iter().copied()),
        NameView::Numbered { front, number } => {
            if front.len() > 23 {
                return false;
            }
            let (units, len) = numbered_units(front, number);
            name.encode_utf16().eq(units[..len].iter().copied())
        }
    }
}

/// Whether a file is one stream, of this name, that has this.
pub fn is_stream<B: Blob>(file: &File<'_, B>, name: &str, held: Held<'_>) -> bool {
    if file.count() != 1 {
        return false;
    }
    is_name(file.name_at(0), name)
        && match file.kind_at(0) {
            KindView::Stream(ContentView::Own(bytes)) => held.1 == None && bytes == held.0,
            KindView::Stream(ContentView::Value { bytes, zeros }) => {
                held.1 == Some(zeros) && bytes.pieces() == 1 && bytes.piece(0) == held.0
            }
            KindView::Storage { .. } => false,
        }
}
