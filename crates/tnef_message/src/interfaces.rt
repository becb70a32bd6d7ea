//! The interfaces of Objects in attachments. [MS-OXTNEF 2.1.3.4.2]
ghost use Rattle.std.specs.Prelude.{◌≡◌, ◌≤◌, IfOk, IfErr, IsTrue, false, length};
ghost use Rattle.carrier_io.specs.Reasons.{fault_of};
ghost use Rattle.carrier_model.specs.Reasons.{BAD_INTERFACE};
ghost use Rattle.tnef_model.specs.TnefMessage.{IID_MESSAGE, IID_STORAGE, has_id};
ghost use Rattle.tnef_message.specs.Interfaces.{IsInterface};

use carrier_io::{Fault, Reason};
use tnef_props::Object;

/// {0000000B-0000-0000-C000-000000000046}: an OLE storage follows.
const STORAGE: [u8; 16] = [0x0b, 0, 0, 0, 0, 0, 0, 0, 0xc0, 0, 0, 0, 0, 0, 0, 0x46];

/// {00020307-0000-0000-C000-000000000046}: a message follows.
const MESSAGE: [u8; 16] = [
    0x07, 0x03, 0x02, 0, 0, 0, 0, 0, 0xc0, 0, 0, 0, 0, 0, 0, 0x46,
];

/// What stands behind an interface's id.
#[derive(Clone, Copy)]
pub enum Interface {
    /// A TNEF stream.
    Message,
    /// A compound file.
    Storage,
}

/// Whether bytes begin with an interface's id.
fn has_interface(bytes: &[u8], id: &[u8]) -> bool
    requires { length id.now ≡ 16 }
    ensures id { result ≡ has_id id.now bytes.now }
    ensures long { IsTrue result → 16 ≤ length bytes.now }
{
    if bytes.len() < 16 {
        return false;
    }
    let (front, _) = bytes.split_at(16);
    front == id
}

/// The interface of the Object of an attachment. BadInterface at its first byte where it is of neither.
pub fn interface_of(object: &Object<'_>) -> Result<Interface, Fault>
    ensures found { IfOk result (IsInterface object.now.bytes.now) }
    ensures message { IfErr result (λ _. has_id IID_MESSAGE object.now.bytes.now ≡ false) }
    ensures storage { IfErr result (λ _. has_id IID_STORAGE object.now.bytes.now ≡ false) }
    ensures fault { IfErr result (λ g. fault_of g ≡ (BAD_INTERFACE, object.now.offset)) }
{
    if has_interface(object.bytes, &MESSAGE) {
        return Ok(Interface::Message);
    }
    if has_interface(object.bytes, &STORAGE) {
        return Ok(Interface::Storage);
    }
    Err(Fault {
        reason: Reason::BadInterface,
        offset: object.offset,
    })
}
