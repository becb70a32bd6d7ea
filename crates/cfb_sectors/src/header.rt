//! The header.
ghost use Rattle.std.specs.Prelude.{◌≡◌, ◌+◌, ◌≤◌, length, IfOk, IsTrue};
ghost use Rattle.carrier_model.specs.Sectors.{is_size, sector_count, u16_of, u32_of};
ghost use Rattle.carrier_model.specs.Tables.{major, sector_shift, sector_size, header_of};
ghost use Rattle.cfb_sectors.specs.Took.{Tells};
ghost use Rattle.cfb_sectors.specs.Views.{head};

use crate::fields::{
    BYTE_ORDER, CUTOFF, DIRECTORY, FAT_COUNT, MAJOR, MINI_FAT, MINI_SHIFT, SECTOR_SHIFT,
};
use carrier_io::{Fault, Reason};

/// How many bytes the header has, and a sector of version 3 [MS-CFB 2.2].
const HEADER: u32 = 512;

/// How many bytes a sector of version 4 has [MS-CFB 2.2].
const SECTOR_4: u32 = 4096;

/// What the header says, and how many bytes a sector has [MS-CFB 2.2].
#[derive(Clone, Copy)]
pub struct Header {
    pub size: u32,
    pub fat_count: u32,
    pub directory: u32,
    pub mini_fat: u32,
}

/// The fault of this reason at an offset.
pub fn fault(reason: Reason, offset: usize) -> Fault
    ensures { result ≡ record { reason = reason; offset = offset } }
{
    Fault {
        reason,
        offset: offset as u64,
    }
}

/// The number in two bytes of the file.
#[tactic(auto, unfolding(carrier_model::specs::Sectors::u16_of))]
pub fn short(bytes: &[u8], at: usize) -> u16
    requires { at + 2 ≤ length bytes.now }
    ensures { result ≡ u16_of bytes.now at }
{
    carrier_io::u16_at(bytes, at)
}

/// The number in four bytes of the file.
#[tactic(auto, unfolding(carrier_model::specs::Sectors::u32_of))]
pub fn long(bytes: &[u8], at: usize) -> u32
    requires { at + 4 ≤ length bytes.now }
    ensures { result ≡ u32_of bytes.now at }
{
    carrier_io::u32_at(bytes, at)
}

/// How many bytes a sector has, by the file's major version: 4,096 in version 4, and else 512.
fn sector_size(bytes: &[u8]) -> u32
    requires { 28 ≤ length bytes.now }
    ensures size { result ≡ sector_size bytes.now }
    ensures known { IsTrue (is_size result) }
{
    if short(bytes, MAJOR) == 4 {
        SECTOR_4
    } else {
        HEADER
    }
}

/// The major version that has sectors of this size.
fn major(size: u32) -> u16
    ensures { result ≡ major size }
{
    if size == HEADER { 3 } else { 4 }
}

/// The power of two that this size is.
fn sector_shift(size: u32) -> u16
    ensures { result ≡ sector_shift size }
{
    if size == HEADER { 9 } else { 12 }
}

/// How many sectors the file has; the last may be cut.
pub fn sector_count(bytes: &[u8], size: u32) -> usize
    requires size { IsTrue (is_size size) }
    requires some { 1 ≤ length bytes.now }
    ensures { result ≡ sector_count size bytes.now }
{
    (bytes.len() - 1) / size as usize
}

/// The header, or its first fault at the field; FileTruncated at the input's length. [MS-CFB 2.2]
#[tactic(auto, unfolding(carrier_model::specs::Tables::header_of))]
pub fn read_header(bytes: &[u8]) -> Result<Header, Fault>
    requires { length bytes.now ≤ 268435456 }
    ensures size { IfOk result (λ h. h.size ≡ sector_size bytes.now) }
    ensures known { IfOk result (λ h. IsTrue (is_size h.size)) }
    ensures long { IfOk result (λ h. h.size ≤ length bytes.now) }
    ensures count { IfOk result (λ h. h.fat_count ≤ sector_count h.size bytes.now) }
    ensures answer { Tells head result (header_of (sector_size bytes.now) bytes.now) }
{
    if bytes.len() < HEADER as usize {
        return Err(fault(Reason::FileTruncated, bytes.len()));
    }
    if long(bytes, 0) != 0xE011_CFD0 || long(bytes, 4) != 0xE11A_B1A1 {
        return Err(fault(Reason::BadFileSignature, 0));
    }
    let size = sector_size(bytes);
    if short(bytes, MAJOR) != major(size) {
        return Err(fault(Reason::BadVersion, MAJOR));
    }
    if short(bytes, BYTE_ORDER) != 0xFFFE {
        return Err(fault(Reason::BadHeader, BYTE_ORDER));
    }
    if short(bytes, SECTOR_SHIFT) != sector_shift(size) {
        return Err(fault(Reason::BadHeader, SECTOR_SHIFT));
    }
    if short(bytes, MINI_SHIFT) != 6 {
        return Err(fault(Reason::BadHeader, MINI_SHIFT));
    }
    if long(bytes, CUTOFF) != 4096 {
        return Err(fault(Reason::BadHeader, CUTOFF));
    }
    let fat_count = long(bytes, FAT_COUNT);
    if fat_count == 0 || fat_count as usize > sector_count(bytes, size) {
        return Err(fault(Reason::BadFatCount, FAT_COUNT));
    }
    Ok(Header {
        size,
        fat_count,
        directory: long(bytes, DIRECTORY),
        mini_fat: long(bytes, MINI_FAT),
    })
}
