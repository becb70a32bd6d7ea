//! A message taken through all its forms, step by step.
ghost use Rattle.std.specs.Prelude.{◌≤◌, length};
ghost use Rattle.carrier_model.specs.Bytes.{AllBytes, MOST_BYTES};
ghost use Rattle.translate_core.specs.Jobs.{job_seen};
ghost use Rattle.translate_core.specs.Trips.{TellsStep, TellsTrip};

use crate::ends::End;
use crate::growing::Growing;
use crate::jobs::Job;
use crate::laws::outputs_are_taken_on;
use crate::translating::translate;
use crate::trips::{Trip, TripEnd};
use mime_envelope::envelopes_are_exact;
use std::alloc::Global;

/// What a step of a trip writes.
fn step_of(alloc: Global, step: u8, job: &Job, bytes: &[u8]) -> Result<Vec<u8>, TripEnd>
    requires { length bytes.now ≤ MOST_BYTES }
    ensures told { TellsStep step (job_seen job.now) bytes.now result }

    // What it was handed are bytes.
    ensures bytes { AllBytes bytes.now }
{
    let mut written = Growing::new(alloc);
    match translate(alloc, job, bytes, &mut written) {
        Ok(()) => Ok(written.bytes),
        Err(End::Refused(fault)) => Err(TripEnd::Refused(fault)),
        Err(End::Unfit(limit)) => Err(TripEnd::Unfit { step, limit }),
        Err(End::WriteFault) => Err(TripEnd::NoMemory),
        Err(End::NoMemory) => Err(TripEnd::NoMemory),
    }
}

/// Takes the message of bytes in hand, in either form, through all forms: into a TNEF stream, that into a mail, out of
/// the mail again, and that into a .msg file. Refused has the first fault of the given bytes, Unfit the first step that
/// passes a limit; NoMemory says that memory ran out.
pub fn trip(alloc: Global, bytes: &[u8]) -> Result<Trip, TripEnd>
    requires { length bytes.now ≤ MOST_BYTES }
    ensures told { TellsTrip bytes.now result }
{
    outputs_are_taken_on();
    envelopes_are_exact();
    let tnef = step_of(alloc, 1, &Job::ToTnef, bytes)?;
    let envelope = step_of(alloc, 2, &Job::Wrap, &tnef)?;
    let carried = step_of(alloc, 3, &Job::Unwrap, &envelope)?;
    let msg = step_of(alloc, 4, &Job::ToMsg, &carried)?;
    Ok(Trip {
        tnef,
        envelope,
        carried,
        msg,
    })
}
