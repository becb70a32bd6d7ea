//! Bytes in hand translated: between the forms of a message, into a mail, and out of one.
#![tactic(auto)]

mod accepting;
mod carriers;
mod ends;
mod files;
mod growing;
mod jobs;
mod laws;
mod mails;
mod steps;
mod streams;
mod translating;
mod trips;

pub use accepting::{Input, accept};
pub use carriers::{Carrier, carrier_of};
pub use ends::{End, MsgEnd, PutEnd};
pub use files::{msg_bytes, write_msg};
pub use jobs::Job;
pub use laws::{
    equal_outputs_are_of_one_message, inputs_are_exact, outputs_are_taken_on,
    outputs_carry_their_message,
};
pub use steps::trip;
pub use translating::translate;
pub use trips::{Trip, TripEnd};
