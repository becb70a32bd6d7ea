//! Streams put into mails, and taken out of them.
ghost use Rattle.std.specs.Prelude.{◌≤◌, length};
ghost use Rattle.carrier_model.specs.Bytes.{MOST_BYTES};
ghost use Rattle.job_model.specs.Commands.{wrap as plain_wrap, unwrap as plain_unwrap};
ghost use Rattle.translate_core.specs.Ends.{Caused, Tells, WritesNothing};

use crate::ends::{End, stopped};
use crate::laws::{inputs_are_exact, outputs_carry_their_message};
use carrier_io::{Sink, write_gathered, write_pieces};
use mime_envelope::{Wrapped, envelope_size, payload};
use msg_tree::Limit;
use std::alloc::Global;
use tnef_message::read_tnef;

/// The most bytes of an output.
const MOST_BYTES: u64 = 268_435_456;

/// Writes the mail that carries a TNEF stream. [RFC 2045, RFC 2046]
pub(crate) fn wrap<W: Sink>(alloc: Global, bytes: &[u8], sink: &mut W) -> Result<(), End>
    requires { length bytes.now ≤ MOST_BYTES }
    ensures told { Tells plain_wrap bytes.now (W.held sink.old) (W.held sink.new) result }
    ensures nothing { WritesNothing result sink.old sink.new }
    ensures cause { Caused (W.faults sink.old) (W.faults sink.new) result }
{
    inputs_are_exact();
    outputs_carry_their_message();
    let _accepted = match read_tnef(alloc, bytes) {
        Ok(accepted) => accepted,
        Err(stop) => return Err(stopped(stop)),
    };
    let size = envelope_size(bytes.len() as u64);
    if size > MOST_BYTES {
        return Err(End::Unfit(Limit::Size(size)));
    }
    match write_gathered(&Wrapped { bytes }, sink) {
        Ok(()) => Ok(()),
        Err(_) => Err(End::WriteFault),
    }
}

/// Writes the TNEF stream that a mail carries, as it stands. [RFC 2045, RFC 2046]
pub(crate) fn unwrap<W: Sink>(alloc: Global, bytes: &[u8], sink: &mut W) -> Result<(), End>
    requires { length bytes.now ≤ MOST_BYTES }
    ensures told { Tells plain_unwrap bytes.now (W.held sink.old) (W.held sink.new) result }
    ensures nothing { WritesNothing result sink.old sink.new }
    ensures cause { Caused (W.faults sink.old) (W.faults sink.new) result }
{
    inputs_are_exact();
    outputs_carry_their_message();
    let stream = match payload(alloc, bytes) {
        Ok(stream) => stream,
        Err(stop) => return Err(stopped(stop)),
    };
    let _accepted = match read_tnef(alloc, &stream) {
        Ok(accepted) => accepted,
        Err(stop) => return Err(stopped(stop)),
    };
    match write_pieces(sink, &stream) {
        Ok(()) => Ok(()),
        Err(_) => Err(End::WriteFault),
    }
}
