//! Tests of words, of mails, of translations, of trips through all forms and of the report: the crates that they are of
//! are below, and have none of their own.
#![tactic(auto)]

#[cfg(test)]
mod given_words;
#[cfg(test)]
mod mails;
#[cfg(test)]
mod reports;
#[cfg(test)]
mod translations;
#[cfg(test)]
mod trips;
