//! How a translation ends without its output.
ghost use Rattle.std.specs.Prelude.{◌≡◌};
ghost use Rattle.translate_core.specs.Ends.{end_of_stop, ended};

use carrier_io::{Fault, Stop};
use msg_tree::Limit;

/// Why a translation wrote nothing, or not all.
#[derive(Clone, Copy, Debug, PartialEq, Eq)]
pub enum End {
    /// The input's first fault. Nothing was written.
    Refused(Fault),
    /// The first limit of the target that the message passes. Nothing was written.
    Unfit(Limit),
    /// The output failed. A front of the result may stand there.
    WriteFault,
    /// Memory was refused. Nothing was written.
    NoMemory,
}

/// Why there is no .msg file of a message.
#[derive(Clone, Copy, Debug, PartialEq, Eq)]
pub enum MsgEnd {
    /// The first limit that the message passes.
    Unfit(Limit),
    /// Memory was refused.
    NoMemory,
}

/// Why a message was not written, or not all of it.
#[derive(Clone, Copy, Debug, PartialEq, Eq)]
pub enum PutEnd {
    /// The first limit of the target that the message passes. Nothing was written.
    Unfit(Limit),
    /// The output failed. A front of the message may stand there.
    WriteFault,
    /// Memory was refused. Nothing was written.
    NoMemory,
}

/// The end of a reader that stopped.
pub(crate) fn stopped(stop: Stop) -> End
    ensures { result ≡ end_of_stop stop }
{
    match stop {
        Stop::Fault(fault) => End::Refused(fault),
        Stop::NoMemory => End::NoMemory,
    }
}

/// The same end, of a translation.
pub(crate) fn ended(put: Result<(), PutEnd>) -> Result<(), End>
    ensures { result ≡ ended put }
{
    match put {
        Ok(()) => Ok(()),
        Err(PutEnd::Unfit(limit)) => Err(End::Unfit(limit)),
        Err(PutEnd::WriteFault) => Err(End::WriteFault),
        Err(PutEnd::NoMemory) => Err(End::NoMemory),
    }
}
