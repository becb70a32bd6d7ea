//! The translation of bytes in hand.
ghost use Rattle.std.specs.Prelude.{◌≤◌, length};
ghost use Rattle.carrier_model.specs.Bytes.{MOST_BYTES};
ghost use Rattle.job_model.specs.Commands as commands;
ghost use Rattle.translate_core.specs.Ends.{Caused, Tells, WritesNothing};
ghost use Rattle.translate_core.specs.Jobs.{job_seen, file_job};

use crate::accepting::{Input, accept};
use crate::ends::{End, ended, stopped};
use crate::files::write_file;
use crate::jobs::Job;
use crate::laws::{inputs_are_exact, outputs_carry_their_message};
use crate::mails::{unwrap, wrap};
use crate::streams::write_tnef;
use carrier_io::Sink;
use cfb_writer::Version;
use std::alloc::Global;

/// Writes the canonical .msg file of the message that bytes mean, in either version. [MS-OXMSG 2.3]
fn to_msg<W: Sink>(alloc: Global, version: Version, bytes: &[u8], sink: &mut W) -> Result<(), End>
    requires { length bytes.now ≤ MOST_BYTES }
    ensures told { Tells (file_job version) bytes.now (W.held sink.old) (W.held sink.new) result }
    ensures nothing { WritesNothing result sink.old sink.new }
    ensures cause { Caused (W.faults sink.old) (W.faults sink.new) result }
{
    inputs_are_exact();
    outputs_carry_their_message();
    match accept(alloc, bytes) {
        Err(stop) => Err(stopped(stop)),
        Ok(Input::Msg(accepted)) => ended(write_file(alloc, version, &accepted.tree, sink)),
        Ok(Input::Tnef(accepted)) => ended(write_file(alloc, version, &accepted.tree, sink)),
    }
}

/// Writes the canonical TNEF stream of the message that bytes mean. [MS-OXTNEF 2.1.3]
fn to_tnef<W: Sink>(alloc: Global, bytes: &[u8], sink: &mut W) -> Result<(), End>
    requires { length bytes.now ≤ MOST_BYTES }
    ensures told { Tells commands.to_tnef bytes.now (W.held sink.old) (W.held sink.new) result }
    ensures nothing { WritesNothing result sink.old sink.new }
    ensures cause { Caused (W.faults sink.old) (W.faults sink.new) result }
{
    inputs_are_exact();
    outputs_carry_their_message();
    match accept(alloc, bytes) {
        Err(stop) => Err(stopped(stop)),
        Ok(Input::Msg(accepted)) => write_tnef(alloc, &accepted.tree, sink),
        Ok(Input::Tnef(accepted)) => write_tnef(alloc, &accepted.tree, sink),
    }
}

/// Translates bytes in hand. Ok says that the whole result was appended; the other ends say why not, and all but WriteFault
/// leave the output as it was.
pub fn translate<W: Sink>(alloc: Global, job: &Job, bytes: &[u8], sink: &mut W) -> Result<(), End>
    requires { length bytes.now ≤ MOST_BYTES }
    ensures told { Tells (job_seen job.now) bytes.now (W.held sink.old) (W.held sink.new) result }
    ensures nothing { WritesNothing result sink.old sink.new }
    ensures cause { Caused (W.faults sink.old) (W.faults sink.new) result }
{
    match job {
        Job::ToMsg => to_msg(alloc, Version::Three, bytes, sink),
        Job::ToMsg4 => to_msg(alloc, Version::Four, bytes, sink),
        Job::ToTnef => to_tnef(alloc, bytes, sink),
        Job::Wrap => wrap(alloc, bytes, sink),
        Job::Unwrap => unwrap(alloc, bytes, sink),
    }
}
