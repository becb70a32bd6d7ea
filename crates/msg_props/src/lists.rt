//! What all property lists have.
ghost use Rattle.std.specs.Prelude.{◌≡◌};
ghost use Rattle.msg_model.specs.MsgProps as lists;
ghost use Rattle.msg_props.specs.Sections.{part_of};

use prop_values::Part;

/// The name of the stream of a list, which makes a storage a message. [MS-OXMSG 2.4]
pub const PROPERTIES: &str = "__properties_version1.0";

/// The bytes of an entry. [MS-OXMSG 2.4.2]
pub const ENTRY: usize = 16;

/// The bytes of the head of a list. [MS-OXMSG 2.4.1]
pub fn head_size(part: Part) -> usize
    ensures { result ≡ lists.head_size (part_of part) }
{
    match part {
        Part::Top => 32,
        Part::Embedded => 24,
        Part::Recipient => 8,
        Part::Attachment => 8,
    }
}
