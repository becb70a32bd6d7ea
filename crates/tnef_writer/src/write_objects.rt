//! The Objects of attachments, which hold messages and stores.
ghost use Rattle.std.specs.Prelude.{◌≡◌, List, length};
ghost use Rattle.carrier_model.specs.Keys.{Name};
ghost use Rattle.carrier_model.specs.Totals.{capped};
ghost use Rattle.tnef_writer.specs.Carried.{IsCarried, interface_of, object_head, object_value};
ghost use Rattle.carrier_io.specs.Summed.{Sums};

use crate::planned::Planned;
use carrier_io::{Blob, Failed, Sink, append, le32};
use cfb_writer::Plan;
use msg_tree::Message;

/// {00020307-0000-0000-C000-000000000046}: a message follows. [MS-OXTNEF 2.1.3.4.2]
const MESSAGE: [u8; 16] = [
    0x07, 0x03, 0x02, 0, 0, 0, 0, 0, 0xc0, 0, 0, 0, 0, 0, 0, 0x46,
];

/// {0000000B-0000-0000-C000-000000000046}: an OLE storage follows.
const STORAGE: [u8; 16] = [0x0b, 0, 0, 0, 0, 0, 0, 0, 0xc0, 0, 0, 0, 0, 0, 0, 0x46];

/// The bytes of an interface's id.
const INTERFACE: u64 = 16;

/// What the Object of an attachment holds.
#[derive(Drop)]
pub enum Carried<'a, 'p, 't, B: Blob> {
    /// A message, the bytes of its stream, and what is planned of it and in it.
    Message {
        message: &'a Message<B>,
        size: u64,
        planned: &'a Planned<'p, 't, B>,
    },
    /// The compound file of a store.
    Store(&'a Plan<'t, B>),
}

impl<B: Blob> Carried<'_, '_, '_, B> {
    /// The bytes of the Object's value. A number that is above the greatest `u64` stays there.
    pub fn size(&self) -> u64
        ensures { (names : List Name) → IsCarried B.bytes names self.now → result ≡ capped (length (object_value B.bytes names self.now)) }
    {
        match self {
            Carried::Message { size, .. } => size.saturating_add(INTERFACE),
            Carried::Store(plan) => plan.size().saturating_add(INTERFACE),
        }
    }

    /// The id of its interface.
    fn interface(&self) -> [u8; 16]
        ensures { result ≡ interface_of self.now }
    {
        match self {
            Carried::Message { .. } => MESSAGE,
            Carried::Store(_) => STORAGE,
        }
    }
}

/// Appends the file of a store.
pub fn append_store<B: Blob, W: Sink>(sink: &mut W, plan: &Plan<'_, B>) -> Result<u16, Failed>
    ensures { Sums (W.held sink.old) (W.held sink.new) (W.faults sink.old) (W.faults sink.new) result plan.now }
{
    plan.append(sink)
}

/// Appends what stands before the value of an Object, whose size is given, and the interface's id: the tag, a count of
/// one, the size and the id.
pub fn append_head<B: Blob, W: Sink>(
    sink: &mut W,
    carried: &Carried<'_, '_, '_, B>,
    size: u32,
) -> Result<u16, Failed>
    ensures { Sums (W.held sink.old) (W.held sink.new) (W.faults sink.old) (W.faults sink.new) result (object_head size (interface_of carried.now)) }
{
    let size = le32(size);
    let tag = append(
        sink,
        &[
            0x0d, 0, 0x01, 0x37, 1, 0, 0, 0, size[0], size[1], size[2], size[3],
        ],
    )?;
    let interface = append(sink, &carried.interface())?;
    Ok(tag.wrapping_add(interface))
}
