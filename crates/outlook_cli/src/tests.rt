mod changing;
mod file;
mod layout;
mod mail;
mod outlook;
mod stream;
mod telling;

use crate::run::run;
use carrier_io::{Fault, MemorySink, MemorySource, Reason};
use file::EMPTY;
use outlook_status::Status;
use std::test::*;
use stream::listed;

/// A stream with the code page 1252 and one property, id 0017 and value 2.
pub(crate) const ONE_PROPERTY: [u8; 63] = [
    0x78, 0x9f, 0x3e, 0x22, 0x01, 0x00, 0x01, 0x06, 0x90, 0x08, 0x00, 0x04, 0x00, 0x00, 0x00, 0x00,
    0x00, 0x01, 0x00, 0x01, 0x00, 0x01, 0x07, 0x90, 0x06, 0x00, 0x08, 0x00, 0x00, 0x00, 0xe4, 0x04,
    0x00, 0x00, 0x00, 0x00, 0x00, 0x00, 0xe8, 0x00, 0x01, 0x03, 0x90, 0x06, 0x00, 0x0c, 0x00, 0x00,
    0x00, 0x01, 0x00, 0x00, 0x00, 0x03, 0x00, 0x17, 0x00, 0x02, 0x00, 0x00, 0x00, 0x1d, 0x00,
];

/// How a run ended, what it wrote and what it reported.
#[derive(Drop)]
pub(crate) struct Outcome {
    pub(crate) status: Status,
    pub(crate) output: Vec<u8>,
    pub(crate) report: Vec<u8>,
}

/// Whether an input was refused for a reason, at an offset.
pub(crate) fn is_refused(got: &Outcome, reason: Reason, offset: u64) -> bool {
    match got.status {
        Status::Refused(fault) => fault == Fault { reason, offset },
        _ => false,
    }
}

/// Runs words, with blanks between them, over an input, with devices that fail at the calls of these numbers.
pub(crate) fn run_over(
    rt: &HostRuntime,
    words: &str,
    input: &[u8],
    failing_reads: &[u64],
    failing_writes: &[u64],
) -> Result<Outcome, Fail> {
    let alloc = rt.alloc();
    let mut list = Vec::new(alloc);
    for word in words.split_whitespace() {
        list.push(String::from_str(alloc, word)?)?;
    }
    let mut source = MemorySource::new(input.to_vec(alloc)?, failing_reads.to_vec(alloc)?);
    let mut sink = MemorySink::new(alloc, 100_000, failing_writes.to_vec(alloc)?)?;
    let mut report = MemorySink::new(alloc, 1000, Vec::new(alloc))?;
    let status = run(alloc, &list, &mut source, &mut sink, &mut report);
    Ok(Outcome {
        status,
        output: sink.bytes().to_vec(alloc)?,
        report: report.bytes().to_vec(alloc)?,
    })
}

/// What is not so fails the test.
pub(crate) fn holds(fact: bool, what: &'static str) -> Result<(), Fail> {
    if fact { Ok(()) } else { Err(what.into()) }
}

/// Words over an input have to end with a code and a line, and write nothing.
pub(crate) fn ends(
    rt: &HostRuntime,
    words: &str,
    input: &[u8],
    code: u8,
    line: &[u8],
) -> Result<(), Fail> {
    let got = run_over(rt, words, input, &[], &[])?;
    holds(got.status.code() == code, "another code")?;
    holds(got.report.as_slice() == line, "another line")?;
    holds(got.output.is_empty(), "something was written")
}

/// Each of some commands, with blanks between them, has to refuse an input for a reason at an offset, and to write nothing.
pub(crate) fn refuse(
    rt: &HostRuntime,
    commands: &str,
    input: &[u8],
    reason: Reason,
    offset: u64,
) -> Result<(), Fail> {
    for command in commands.split_whitespace() {
        let got = run_over(rt, command, input, &[], &[])?;
        holds(is_refused(&got, reason, offset), "another fault or none")?;
        holds(got.output.is_empty(), "something was written")?;
    }
    Ok(())
}

/// Words over an input have to write these bytes and to report nothing.
pub(crate) fn write(
    rt: &HostRuntime,
    words: &str,
    input: &[u8],
    wanted: &[u8],
) -> Result<(), Fail> {
    let got = run_over(rt, words, input, &[], &[])?;
    holds(got.status.code() == 0, "no success")?;
    holds(got.output.as_slice() == wanted, "other bytes")?;
    holds(got.report.is_empty(), "something was reported")
}

#[test]
fn streams_are_translated(rt: HostRuntime) -> Result<(), Fail> {
    write(&rt, "to-tnef", &ONE_PROPERTY, &ONE_PROPERTY)?;
    write(&rt, "to-tnef", &EMPTY, &listed(&rt, &[0; 4])?)
}

#[test]
fn streams_are_refused(rt: HostRuntime) -> Result<(), Fail> {
    ends(&rt, "to-tnef", &[], 1, b"refused 1 NotACarrier at 0\n")?;
    let mut sum = ONE_PROPERTY;
    sum[61] = 0x1e;
    ends(&rt, "to-msg", &sum, 1, b"refused 63 BadSum at 61\n")
}

#[test]
fn other_words_are_usage(rt: HostRuntime) -> Result<(), Fail> {
    for words in ["to-msg x", "", "sample 007"] {
        let got = run_over(&rt, words, &ONE_PROPERTY, &[0], &[])?;
        assert_eq!(rt; (got.status.code(), got.output.len()), (2, 0));
        assert_eq!(rt;
            got.report.as_slice(),
            &b"usage: show, check, to-msg, to-msg4, to-tnef, wrap, unwrap, to-unicode, to-json, from-json, edit EDITS, or sample N\n"[..]
        );
    }
    Ok(())
}

#[test]
fn a_read_that_fails(rt: HostRuntime) -> Result<(), Fail> {
    for call in 0..10 {
        let got = run_over(&rt, "to-tnef", &ONE_PROPERTY, &[call], &[])?;
        let end = (got.status.code(), got.output.as_slice());
        let failed = end == (4, &[][..]) && got.report.as_slice() == b"read fault\n".as_slice();
        assert!(rt; failed || call > 0 && end == (0, &ONE_PROPERTY[..]));
    }
    Ok(())
}

#[test]
fn a_write_that_fails(rt: HostRuntime) -> Result<(), Fail> {
    let got = run_over(&rt, "to-tnef", &ONE_PROPERTY, &[], &[0])?;
    assert_eq!(rt; (got.status.code(), got.output.len()), (5, 0));
    assert_eq!(rt; got.report.as_slice(), b"write fault\n".as_slice());
    Ok(())
}

#[test]
fn a_report_without_room(rt: HostRuntime) -> Result<(), Fail> {
    let alloc = rt.alloc();
    let mut words = Vec::new(alloc);
    words.push(String::from_str(alloc, "to-msg")?)?;
    let mut sum = ONE_PROPERTY;
    sum[61] = 0x1e;
    let mut source = MemorySource::new(sum.to_vec(alloc)?, Vec::new(alloc));
    let mut output = MemorySink::new(alloc, 10, Vec::new(alloc))?;
    let mut report = MemorySink::new(alloc, 5, Vec::new(alloc))?;
    let status = run(alloc, &words, &mut source, &mut output, &mut report);
    assert_eq!(rt; (status.code(), report.bytes()), (1, b"refus".as_slice()));
    Ok(())
}
