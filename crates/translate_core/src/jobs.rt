//! What is made of an input.

/// What is made of an input.
#[derive(Clone, Copy, Debug, PartialEq, Eq)]
pub enum Job {
    /// A .msg file with sectors of 512 bytes. [MS-CFB 2.2]
    ToMsg,
    /// A .msg file with sectors of 4,096 bytes. [MS-CFB 2.2]
    ToMsg4,
    /// A TNEF stream. [MS-OXTNEF 2.1]
    ToTnef,
    /// The mail that carries a stream. [RFC 2045, RFC 2046]
    Wrap,
    /// The stream that a mail carries.
    Unwrap,
}
