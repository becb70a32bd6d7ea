//! What the attributes of a stream belong to, by their ids. [MS-OXTNEF 2.1.3.3]
ghost use Rattle.std.specs.Prelude.{◌≡◌};
ghost use Rattle.tnef_model.specs.LegacyAttributes as plain;
ghost use Rattle.tnef_message.specs.Roles.{IsRole};

use tnef_attributes::ids;

/// What an attribute belongs to.
#[derive(Clone, Copy)]
pub enum Role {
    /// The message itself.
    Message,
    /// A new attachment, which begins with it.
    NewAttachment,
    /// The attachment before it.
    Attachment,
    /// Nothing that a message has; it is passed over.
    Unknown,
}

fn is_of_message(id: u32) -> bool
    ensures { result ≡ plain.is_message_id id }
{
    matches!(
        id,
        ids::VERSION
            | ids::MESSAGE_PROPS
            | ids::RECIPIENTS
            | ids::CODE_PAGE
            | ids::MESSAGE_CLASS
            | ids::SUBJECT
            | ids::BODY
            | ids::DATE_SENT
            | ids::DATE_RECEIVED
            | ids::DATE_MODIFIED
    )
}

fn is_of_attachment(id: u32) -> bool
    ensures { result ≡ plain.is_attachment_id id }
{
    matches!(
        id,
        ids::ATTACHMENT
            | ids::RENDERING
            | ids::ATTACH_DATA
            | ids::ATTACH_TITLE
            | ids::ATTACH_META_FILE
            | ids::ATTACH_TRANSPORT_FILENAME
            | ids::ATTACH_CREATE_DATE
            | ids::ATTACH_MODIFY_DATE
    )
}

/// What the attribute with an id belongs to.
pub fn role_of(id: u32) -> Role
    ensures { IsRole id result }
{
    if is_of_message(id) {
        Role::Message
    } else if id == ids::RENDERING {
        Role::NewAttachment
    } else if is_of_attachment(id) {
        Role::Attachment
    } else {
        Role::Unknown
    }
}
