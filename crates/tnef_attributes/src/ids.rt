//! The ids of attributes, by the standard's names. [MS-OXTNEF 2.1.3]

/// attTnefVersion.
pub const VERSION: u32 = 0x0008_9006;

/// attOemCodepage.
pub const CODE_PAGE: u32 = 0x0006_9007;

/// attMsgProps: the property list of a message.
pub const MESSAGE_PROPS: u32 = 0x0006_9003;

/// attRecipTable: the property lists of the recipients.
pub const RECIPIENTS: u32 = 0x0006_9004;

/// attMessageClass.
pub const MESSAGE_CLASS: u32 = 0x0007_8008;

/// attSubject.
pub const SUBJECT: u32 = 0x0001_8004;

/// attBody.
pub const BODY: u32 = 0x0002_800c;

/// attDateSent.
pub const DATE_SENT: u32 = 0x0003_8005;

/// attDateRecd.
pub const DATE_RECEIVED: u32 = 0x0003_8006;

/// attDateModified, of a message.
pub const DATE_MODIFIED: u32 = 0x0003_8020;

/// attAttachRendData, with which an attachment begins.
pub const RENDERING: u32 = 0x0006_9002;

/// attAttachment: the property list of an attachment.
pub const ATTACHMENT: u32 = 0x0006_9005;

/// attAttachData.
pub const ATTACH_DATA: u32 = 0x0006_800f;

/// attAttachTitle.
pub const ATTACH_TITLE: u32 = 0x0001_8010;

/// attAttachMetaFile.
pub const ATTACH_META_FILE: u32 = 0x0006_8011;

/// attAttachTransportFilename.
pub const ATTACH_TRANSPORT_FILENAME: u32 = 0x0006_9001;

/// attAttachCreateDate.
pub const ATTACH_CREATE_DATE: u32 = 0x0003_8012;

/// attAttachModifyDate.
pub const ATTACH_MODIFY_DATE: u32 = 0x0003_8013;
