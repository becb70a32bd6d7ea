//! What a trip through all forms gives.

use carrier_io::Fault;
use msg_tree::Limit;

/// What the four steps of a trip wrote.
#[derive(Drop)]
pub struct Trip {
    /// The canonical TNEF stream of the message. [MS-OXTNEF 2.1.3]
    pub tnef: Vec<u8>,
    /// The mail that carries that stream. [RFC 2045, RFC 2046]
    pub envelope: Vec<u8>,
    /// The stream as it was taken out of the mail.
    pub carried: Vec<u8>,
    /// The canonical .msg file of the message, of version 3. [MS-OXMSG 2.3]
    pub msg: Vec<u8>,
}

/// Why a trip did not reach its end.
#[derive(Clone, Copy, Debug, PartialEq, Eq)]
pub enum TripEnd {
    /// The first fault of the given bytes. What a step wrote is refused by none after it.
    Refused(Fault),
    /// The first step, counted from 1, that passes a limit, and that limit.
    Unfit { step: u8, limit: Limit },
    /// Memory was refused.
    NoMemory,
}
