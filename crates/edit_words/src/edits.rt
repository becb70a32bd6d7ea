//! Edits of a message.
ghost use Rattle.std.specs.Prelude.{◌≡◌};
ghost use Rattle.edit_words.specs.Meaning.{edit_of};
ghost use Rattle.edit_words.specs.Parts.{part_meant, part_of, path_of};

use carrier_io::Numbers;
use prop_names::Key;
use prop_values::{Kind, Prop};

/// What has properties in a message: the message itself, or the recipient or the attachment of a number, from 0.
#[derive(Clone, Copy, Debug, PartialEq, Eq)]
pub enum Spot {
    Message,
    Recipient(u64),
    Attachment(u64),
}

/// A spot in a message.
#[derive(Debug, Drop)]
pub struct Place {
    /// The numbers of the attachments that embed the message, from the top message down.
    pub path: Numbers,
    /// Where in the message.
    pub spot: Spot,
}

/// One edit. A `path` leads to a message as that of a `Place` does.
#[derive(Drop)]
pub enum Edit {
    /// Puts a property in its place, and in the place of the one that has its key and kind.
    SetProp { place: Place, prop: Prop<Vec<u8>> },
    /// Takes the property with the key and the kind out.
    RemoveProp { place: Place, key: Key, kind: Kind },
    /// Puts a recipient without properties behind the others.
    AddRecipient { path: Numbers },
    /// Takes a recipient out. Those behind it move up.
    DropRecipient { path: Numbers, number: u64 },
    /// Takes an attachment out. Those behind it move up.
    DropAttachment { path: Numbers, number: u64 },
}

impl Edit {
    /// The path to its message.
    pub fn path(&self) -> &Numbers
        ensures { result.now ≡ path_of (edit_of self.now) }
    {
        match self {
            Edit::SetProp { place, .. } => &place.path,
            Edit::RemoveProp { place, .. } => &place.path,
            Edit::AddRecipient { path } => path,
            Edit::DropRecipient { path, .. } => path,
            Edit::DropAttachment { path, .. } => path,
        }
    }

    /// What it changes in its message.
    pub fn part(&self) -> Part
        ensures { part_meant result ≡ part_of (edit_of self.now) }
    {
        match self {
            Edit::SetProp { place, .. } => Part::Props(place.spot),
            Edit::RemoveProp { place, .. } => Part::Props(place.spot),
            Edit::AddRecipient { .. } => Part::Recipients,
            Edit::DropRecipient { .. } => Part::Recipients,
            Edit::DropAttachment { .. } => Part::Attachments,
        }
    }
}

/// What an edit changes in its message.
#[derive(Clone, Copy, Debug, PartialEq, Eq)]
pub enum Part {
    /// The properties of a spot.
    Props(Spot),
    /// The list of recipients.
    Recipients,
    /// The list of attachments.
    Attachments,
}
