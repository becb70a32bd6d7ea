//! Code pages.
ghost use Rattle.std.specs.Prelude.{◌≡◌};
ghost use Rattle.std.specs.Option.{option_map};
ghost use Rattle.text8_model.specs.Pages as plain;
ghost use Rattle.tree_text8.specs.Meaning.{plain_page};

/// A page that texts of 8-bit characters are read in.
#[derive(Clone, Copy, Debug, PartialEq, Eq)]
pub enum Page {
    /// Number 1252. [MS-UCODEREF]
    Windows1252,
    /// Number 28591: ISO 8859-1.
    Latin1,
    /// Number 20127: US-ASCII.
    Ascii,
    /// Number 65001. [RFC 3629]
    Utf8,
}

/// The page of a number, as PidTagMessageCodepage has it; None where it is none of the four. [MS-OXCMSG 2.2.1]
pub fn page_of(number: u32) -> Option<Page>
    ensures { option_map plain_page result ≡ plain.page_of number }
{
    match number {
        1252 => Some(Page::Windows1252),
        28591 => Some(Page::Latin1),
        20127 => Some(Page::Ascii),
        65001 => Some(Page::Utf8),
        _ => None,
    }
}
