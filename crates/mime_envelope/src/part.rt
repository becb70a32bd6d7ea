//! A TNEF part that was found.
use crate::header::Field;

/// A TNEF part.
#[derive(Debug, Drop)]
pub struct Part<'a> {
    /// Its Content-Transfer-Encoding, if there is one.
    pub encoding: Option<Field>,
    /// The offset of its body's first byte.
    pub place: u64,
    pub body: &'a [u8],
}
