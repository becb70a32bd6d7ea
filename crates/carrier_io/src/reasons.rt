//! Why input is refused.
ghost use Rattle.std.specs.Prelude.{◌≡◌};
ghost use Rattle.carrier_io.specs.Reasons.{number_of, name_of};
ghost use Rattle.carrier_io.specs.declared.reasons.Stop.TheVariants as stops;

use crate::failures::NoMemory;
use std::alloc::{AllocError, AllocFailed};

/// Why input is refused, and which field it is reported at.
#[derive(Clone, Copy, Debug, PartialEq, Eq)]
pub enum Reason {
    /// The input begins with neither signature; at 0.
    NotACarrier,
    /// More bytes were given than the command reads: 268,435,456, or 33,554,432 of a JSON text; at that number.
    InputTooLong,
    /// A message of level 33; in a .msg file at the entry of the object, in a TNEF stream at the first byte of its value.
    TooDeep,
    /// A compound file without its signature; at 0.
    BadFileSignature,
    /// A major version other than 3 and 4; at 26.
    BadVersion,
    /// A header field with another value than the format fixes; at the field.
    BadHeader,
    /// A FAT sector count that is 0 or above the number of sectors; at 44.
    BadFatCount,
    /// A named sector does not exist or has no word in the table; at the field or word that names it.
    SectorOutOfRange,
    /// A named sector is in this chain already; at the field or word that names it.
    Cycle,
    /// A named sector is in another chain or list, or is named for the FAT a second time; at the field or word that names it.
    Shared,
    /// A chain ends before its need is met; at its last word, or at the start field of an empty one.
    ShortChain,
    /// A needed byte is past the end of the file or of the mini stream; at the field that needs it, or at the file's length
    /// where its header is cut.
    FileTruncated,
    /// A directory entry of a type that may not stand there; at the type.
    BadEntryType,
    /// An entry name whose length is odd, below 2 or above 64; at the length.
    BadName,
    /// A link to an entry that was reached before, or to the root; at the link.
    EntryShared,
    /// A link to an entry that does not exist; at the link.
    EntryOutOfRange,
    /// Two children of one storage with one name, ASCII letters folded; at the later entry.
    DoubleName,
    /// A storage deeper than 100; at its type.
    StorageTooDeep,
    /// A name entry whose GUID is past the GUID stream; at the entry.
    BadGuidIndex,
    /// A name entry whose text is past the text stream; at the entry.
    BadNameOffset,
    /// A name text of an odd, too great or unfitting length; at the length.
    BadNameLength,
    /// A property index for the second time; at the later name entry.
    DoubleId,
    /// A property index above 7FFF; at the name entry.
    BadPropertyIndex,
    /// A property stream shorter than its head; at the size of the stream's entry.
    BadPropStream,
    /// A property type outside the table; at the property entry.
    UnknownType,
    /// A named property without a name; at the property entry.
    UnmappedId,
    /// A value without its stream; at the property entry.
    MissingStream,
    /// A stream whose length does not fit its kind; at the size of the stream's entry.
    BadElement,
    /// A key and kind for the second time in one list; at the later property entry.
    DuplicateProperty,
    /// A storage without its property stream; at the storage's directory entry.
    MissingProperties,
    /// The object of an attachment without its storage; at the property entry.
    MissingStorage,
    /// A storage 33 levels below its store; at the type in its directory entry.
    StoreTooDeep,
    /// A store with the property stream of a message; at the size in the directory entry of that stream.
    StoreIsMessage,
    /// A TNEF stream without its signature; at the stream's first byte.
    BadSignature,
    /// An attribute of a level other than 1 and 2; at the level byte.
    BadLevel,
    /// A field of an attribute that does not fit; at the field's first byte.
    Truncated,
    /// An attribute's sum is not that of its bytes; at the sum.
    BadSum,
    /// A field of a property list that does not fit; at the field's first byte.
    ListTruncated,
    /// A property type outside the table; at the tag.
    UnknownListType,
    /// A name of a kind other than 0 and 1; at the kind.
    BadNameKind,
    /// A name's text of an odd or too great length; at the length.
    BadNameSize,
    /// A single value with a count other than 1; at the count.
    BadCount,
    /// A size that is odd for a text of units, or below 16 for the object of an attachment; at the size.
    BadSize,
    /// A key and kind for the second time in one list; at the later tag.
    DuplicateListProperty,
    /// An attachment attribute before any attachment; at the level byte.
    NoAttachment,
    /// An attribute for the second time in one message or attachment; at the later level byte.
    DoubleAttribute,
    /// An object that is neither a message nor a storage; at its first byte.
    BadInterface,
    /// A mail without a TNEF part; at 0.
    NoTnefPart,
    /// A TNEF part in another encoding than base64; at the field's line or the body.
    NotBase64,
    /// A byte outside the base64 alphabet; at the byte.
    BadBase64,
    /// A base64 text with wrong padding or trailing bits; at the body's end.
    BadPadding,
    /// A multipart without a usable boundary; at the Content-Type line.
    BadBoundary,
    /// A header line without a colon, or a first line that continues; at the line.
    BadHeaderLine,
    /// A multipart of nesting 17; at the Content-Type line.
    PartTooDeep,
    /// A multipart without its closing line; at the body's end.
    MissingClose,
}

impl Reason {
    /// The number that the report line prints.
    pub fn number(self) -> u32
        ensures { result ≡ number_of self }
    {
        match self {
            Reason::NotACarrier => 1,
            Reason::InputTooLong => 3,
            Reason::TooDeep => 4,
            Reason::BadFileSignature => 10,
            Reason::BadVersion => 11,
            Reason::BadHeader => 12,
            Reason::BadFatCount => 13,
            Reason::SectorOutOfRange => 14,
            Reason::Cycle => 15,
            Reason::Shared => 16,
            Reason::ShortChain => 17,
            Reason::FileTruncated => 18,
            Reason::BadEntryType => 25,
            Reason::BadName => 26,
            Reason::EntryShared => 27,
            Reason::EntryOutOfRange => 28,
            Reason::DoubleName => 29,
            Reason::StorageTooDeep => 30,
            Reason::BadGuidIndex => 35,
            Reason::BadNameOffset => 36,
            Reason::BadNameLength => 37,
            Reason::DoubleId => 38,
            Reason::BadPropertyIndex => 39,
            Reason::BadPropStream => 43,
            Reason::UnknownType => 44,
            Reason::UnmappedId => 45,
            Reason::MissingStream => 46,
            Reason::BadElement => 47,
            Reason::DuplicateProperty => 48,
            Reason::MissingProperties => 53,
            Reason::MissingStorage => 54,
            Reason::StoreTooDeep => 55,
            Reason::StoreIsMessage => 56,
            Reason::BadSignature => 60,
            Reason::BadLevel => 61,
            Reason::Truncated => 62,
            Reason::BadSum => 63,
            Reason::ListTruncated => 70,
            Reason::UnknownListType => 71,
            Reason::BadNameKind => 72,
            Reason::BadNameSize => 73,
            Reason::BadCount => 74,
            Reason::BadSize => 75,
            Reason::DuplicateListProperty => 76,
            Reason::NoAttachment => 79,
            Reason::DoubleAttribute => 80,
            Reason::BadInterface => 82,
            Reason::NoTnefPart => 85,
            Reason::NotBase64 => 86,
            Reason::BadBase64 => 87,
            Reason::BadPadding => 88,
            Reason::BadBoundary => 89,
            Reason::BadHeaderLine => 90,
            Reason::PartTooDeep => 91,
            Reason::MissingClose => 92,
        }
    }

    /// The name that the report line prints.
    pub fn name(self) -> &'static str
        ensures { result.now ≡ name_of self }
    {
        match self {
            Reason::NotACarrier => "NotACarrier",
            Reason::InputTooLong => "InputTooLong",
            Reason::TooDeep => "TooDeep",
            Reason::BadFileSignature => "BadFileSignature",
            Reason::BadVersion => "BadVersion",
            Reason::BadHeader => "BadHeader",
            Reason::BadFatCount => "BadFatCount",
            Reason::SectorOutOfRange => "SectorOutOfRange",
            Reason::Cycle => "Cycle",
            Reason::Shared => "Shared",
            Reason::ShortChain => "ShortChain",
            Reason::FileTruncated => "FileTruncated",
            Reason::BadEntryType => "BadEntryType",
            Reason::BadName => "BadName",
            Reason::EntryShared => "EntryShared",
            Reason::EntryOutOfRange => "EntryOutOfRange",
            Reason::DoubleName => "DoubleName",
            Reason::StorageTooDeep => "StorageTooDeep",
            Reason::BadGuidIndex => "BadGuidIndex",
            Reason::BadNameOffset => "BadNameOffset",
            Reason::BadNameLength => "BadNameLength",
            Reason::DoubleId => "DoubleId",
            Reason::BadPropertyIndex => "BadPropertyIndex",
            Reason::BadPropStream => "BadPropStream",
            Reason::UnknownType => "UnknownType",
            Reason::UnmappedId => "UnmappedId",
            Reason::MissingStream => "MissingStream",
            Reason::BadElement => "BadElement",
            Reason::DuplicateProperty => "DuplicateProperty",
            Reason::MissingProperties => "MissingProperties",
            Reason::MissingStorage => "MissingStorage",
            Reason::StoreTooDeep => "StoreTooDeep",
            Reason::StoreIsMessage => "StoreIsMessage",
            Reason::BadSignature => "BadSignature",
            Reason::BadLevel => "BadLevel",
            Reason::Truncated => "Truncated",
            Reason::BadSum => "BadSum",
            Reason::ListTruncated => "ListTruncated",
            Reason::UnknownListType => "UnknownListType",
            Reason::BadNameKind => "BadNameKind",
            Reason::BadNameSize => "BadNameSize",
            Reason::BadCount => "BadCount",
            Reason::BadSize => "BadSize",
            Reason::DuplicateListProperty => "DuplicateListProperty",
            Reason::NoAttachment => "NoAttachment",
            Reason::DoubleAttribute => "DoubleAttribute",
            Reason::BadInterface => "BadInterface",
            Reason::NoTnefPart => "NoTnefPart",
            Reason::NotBase64 => "NotBase64",
            Reason::BadBase64 => "BadBase64",
            Reason::BadPadding => "BadPadding",
            Reason::BadBoundary => "BadBoundary",
            Reason::BadHeaderLine => "BadHeaderLine",
            Reason::PartTooDeep => "PartTooDeep",
            Reason::MissingClose => "MissingClose",
        }
    }
}

/// A reason, and the place of the field that it is reported at.
#[derive(Clone, Copy, Debug, PartialEq, Eq)]
pub struct Fault {
    /// What is wrong there.
    pub reason: Reason,
    /// The place, in bytes from the first of the input.
    pub offset: u64,
}

/// Why a reader stopped.
#[derive(Clone, Copy, Debug, PartialEq, Eq)]
pub enum Stop {
    /// The first fault of what it read.
    Fault(Fault),
    /// Memory was refused.
    NoMemory,
}

impl From<AllocError> for Stop {
    ghost from_gives = { λ _ e. e ≡ stops.NoMemory };

    fn from(_: AllocError) -> Stop {
        Stop::NoMemory
    }
}

impl<T: Drop> From<AllocFailed<T>> for Stop {
    ghost from_gives = { λ _ e. e ≡ stops.NoMemory };

    fn from(_: AllocFailed<T>) -> Stop {
        Stop::NoMemory
    }
}

impl From<NoMemory> for Stop {
    ghost from_gives = { λ _ e. e ≡ stops.NoMemory };

    fn from(_: NoMemory) -> Stop {
        Stop::NoMemory
    }
}

impl From<Fault> for Stop {
    ghost from_gives = { λ g e. e ≡ stops.Fault g };

    fn from(g: Fault) -> Stop {
        Stop::Fault(g)
    }
}
