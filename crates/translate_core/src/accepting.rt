//! The message of bytes in hand.
ghost use Rattle.std.specs.Prelude.{◌≡◌, ◌≤◌, length, IfOk};
ghost use Rattle.carrier_io.specs.Reads.{Gives, Reads};
ghost use Rattle.carrier_model.specs.Bytes.{MOST_BYTES};
ghost use Rattle.job_model.specs.Acceptance.{CarriesMessage, MessageFault};
ghost use Rattle.job_model.specs.Signatures as plain;
ghost use Rattle.msg_model.specs.MsgMessage.{file_meaning};
ghost use Rattle.msg_tree.specs.Whole.{meaning_in};
ghost use Rattle.translate_core.specs.Inputs.{is_msg, meaning_of};

use crate::carriers::{is_compound, is_signed};
use carrier_io::{Fault, Reason, Stop, Walk};
use cfb_directory::open_files;
use cfb_sectors::StreamView;
use msg_storage::read_msg;
use msg_tree::Accepted;
use std::alloc::Global;
use tnef_message::{Held, read_tnef};

/// What was accepted, by the form that it had. Values stay in the input.
#[derive(Drop)]
pub enum Input<'a> {
    /// That of a .msg file.
    Msg(Accepted<StreamView<'a>>),
    /// That of a TNEF stream, or of a mail that carries one.
    Tnef(Accepted<Held<'a>>),
}

/// The message of a .msg file.
#[tactic(auto, unfolding(msg_model::specs::MsgMessage::file_meaning))]
fn accept_msg<'a>(alloc: Global, bytes: &'a [u8]) -> Result<Accepted<StreamView<'a>>, Stop>
    requires { length bytes.now ≤ MOST_BYTES }
    ensures { Gives meaning_in result (file_meaning bytes.entry.now) }
{
    let mut walk = Walk::new();
    let files = open_files(alloc, bytes, &mut walk)?;
    read_msg(alloc, &files)
}

/// The message that bytes in hand mean, in either form, and what was passed over; or the first fault. Bytes that begin as a
/// compound file are read as a .msg file, and those that begin as neither are NotACarrier at 0.
/// [MS-OXMSG 2.1, MS-OXTNEF 2.1.3]
pub fn accept<'a>(alloc: Global, bytes: &'a [u8]) -> Result<Input<'a>, Stop>
    requires { length bytes.now ≤ MOST_BYTES }
    ensures both { Reads meaning_of result (CarriesMessage bytes.entry.now) (MessageFault bytes.entry.now) }
    ensures form { IfOk result (λ i. is_msg i ≡ plain.is_compound bytes.entry.now) }
{
    if is_compound(bytes) {
        return match accept_msg(alloc, bytes) {
            Ok(accepted) => Ok(Input::Msg(accepted)),
            Err(stop) => Err(stop),
        };
    }
    if !is_signed(bytes) {
        return Err(Stop::Fault(Fault {
            reason: Reason::NotACarrier,
            offset: 0,
        }));
    }
    match read_tnef(alloc, bytes) {
        Ok(accepted) => Ok(Input::Tnef(accepted)),
        Err(stop) => Err(stop),
    }
}
