//! What a mail with a TNEF stream means, and the mail that is written, as plain lists. The definitions stand in specs/;
//! each function here is a law about them and does nothing.
#![tactic(auto)]

mod mail_rows;

pub use mail_rows::base64_of_known_texts;
