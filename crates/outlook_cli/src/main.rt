//! Translates Outlook messages between their carriers.
#![tactic(auto)]

mod changing;
mod json;
mod run;
mod sampling;
mod telling;
mod words;

use argument_words::{WordsEnd, words_given};
use carrier_io::{StdSink, StdSource};
use outlook_status::Status;
use run::run;
use std::process::ExitCode;

/// The exit code where a word is not UTF-8.
const NOT_UTF8: u8 = 10;

fn main(rt: HostRuntime) -> ExitCode {
    let words = match words_given(rt.alloc(), &rt) {
        Ok(words) => words,
        Err(WordsEnd::NotUtf8) => return ExitCode::from(NOT_UTF8),
        Err(WordsEnd::NoMemory) => return ExitCode::from(Status::NoMemory.code()),
    };
    let mut input = StdSource::new(rt.stdin());
    let mut output = StdSink::new(rt.stdout());
    let mut report = StdSink::new(rt.stderr());
    let status = run(rt.alloc(), &words, &mut input, &mut output, &mut report);
    ExitCode::from(status.code())
}

#[cfg(test)]
mod tests;
