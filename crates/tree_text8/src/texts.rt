//! Texts of 8-bit characters, read in their page.
ghost use Rattle.std.specs.Prelude.{◌≡◌, None, IfOk, IfErr};
ghost use Rattle.carrier_model.specs.Bytes.{unit_bytes};
ghost use Rattle.text8_model.specs.Pages as plain;
ghost use Rattle.text8_model.specs.Texts.{bad_place, units_in};
ghost use Rattle.text8_model.specs.Unicode.{wide_bytes};
ghost use Rattle.tree_text8.specs.Ends.{IsBadAt};
ghost use Rattle.tree_text8.specs.Meaning.{plain_page};

use crate::ends::PartEnd;
use crate::pages::Page;
use crate::singles::{SinglePage, wide_singles};
use carrier_io::{Blob, copy_bytes};
use prop_values::utf16_bytes;
use std::alloc::Global;
use std::str;

/// The units of a text in UTF-8, the low byte of each first.
fn wide_utf8(alloc: Global, bytes: &[u8]) -> Result<Vec<u8>, PartEnd>
    ensures ok { IfOk result (λ v. (bad_place plain.utf_8 bytes.now ≡ None) × (v.items ≡ unit_bytes (units_in plain.utf_8 bytes.now))) }
    ensures bad { IfErr result (IsBadAt (bad_place plain.utf_8 bytes.now)) }
{
    match str::from_utf8(bytes) {
        Ok(text) => Ok(utf16_bytes(alloc, text)?),
        Err(end) => Err(PartEnd::Bad {
            element: 0,
            at: end.valid_up_to(),
        }),
    }
}

/// The units of a text in any page, the low byte of each first.
pub(crate) fn wide_text(alloc: Global, page: Page, bytes: &[u8]) -> Result<Vec<u8>, PartEnd>
    ensures ok { IfOk result (λ v. (bad_place (plain_page page) bytes.now ≡ None) × (v.items ≡ wide_bytes (plain_page page) bytes.now)) }
    ensures bad { IfErr result (IsBadAt (bad_place (plain_page page) bytes.now)) }
{
    match page {
        Page::Windows1252 => wide_singles(alloc, SinglePage::Windows1252, bytes),
        Page::Latin1 => wide_singles(alloc, SinglePage::Latin1, bytes),
        Page::Ascii => wide_singles(alloc, SinglePage::Ascii, bytes),
        Page::Utf8 => wide_utf8(alloc, bytes),
    }
}

/// The same of a text that may be cut into pieces. One in several pieces is put together first.
pub(crate) fn wide_blob<B: Blob>(alloc: Global, page: Page, blob: &B) -> Result<Vec<u8>, PartEnd>
    ensures ok { IfOk result (λ v. (bad_place (plain_page page) (B.bytes blob.now) ≡ None) × (v.items ≡ wide_bytes (plain_page page) (B.bytes blob.now))) }
    ensures bad { IfErr result (IsBadAt (bad_place (plain_page page) (B.bytes blob.now))) }
{
    if blob.pieces() == 1 {
        return wide_text(alloc, page, blob.piece(0));
    }
    let bytes = copy_bytes(alloc, blob)?;
    wide_text(alloc, page, &bytes)
}
