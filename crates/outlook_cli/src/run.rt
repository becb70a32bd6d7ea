//! A command from its words to its end: what is read, what is written, and the report.
ghost use Rattle.std.specs.Prelude.{◌≡◌, ◌⊎◌, ◌≤◌, ◌+◌, ℕ, None, Some, length};
ghost use Rattle.std.specs.Io.KnownBytes.{IsAtEnd};
ghost use Rattle.carrier_io.specs.Causes.{Rose};
ghost use Rattle.carrier_io.specs.Known.{Takes};
ghost use Rattle.carrier_model.specs.Bytes.{MOST_BYTES};
ghost use Rattle.job_model.specs.Commands as plain;
ghost use Rattle.job_model.specs.Commands.{command_of};
ghost use Rattle.outlook_cli.specs.Words.{command_seen, texts, Reads};
ghost use Rattle.outlook_status.specs.Report.{Reports, line_of};
ghost use Rattle.outlook_cli.specs.Outcome.{Answers, LeavesAtDone, Tells, TellsJob, WritesNothing, most_bytes};
ghost use Rattle.translate_core.specs.Jobs.{job_seen};

use crate::changing::{edit_bytes, unicode_bytes};
use crate::json::{JSON_LIMIT, json_bytes, tree_bytes};
use crate::sampling::write_sample;
use crate::telling::{check_bytes, show_bytes};
use crate::words::{Command, job_of};
use carrier_io::{Fault, ReadEnd, Reason, Sink, Source, read_all};
use outlook_status::{Status, write_report};
use std::alloc::Global;
use translate_core::{End, Job, inputs_are_exact, translate};

/// The most bytes of an input.
const LIMIT: usize = 268_435_456;

/// Translates bytes in hand.
fn translate_bytes<O: Sink>(alloc: Global, job: &Job, bytes: &[u8], output: &mut O) -> Status
    requires { length bytes.now ≤ MOST_BYTES }
    ensures told { TellsJob (job_seen job.now) bytes.now (O.held output.old) (O.held output.new) result }
    ensures nothing { WritesNothing result output.old output.new }
    ensures fault { result ≡ Status.WriteFault → Rose (O.faults output.old) (O.faults output.new) }
    ensures no_usage { result ≡ Status.Usage → ⊥ }
    ensures no_read_fault { result ≡ Status.ReadFault → ⊥ }
{
    match translate(alloc, job, bytes, output) {
        Ok(()) => Status::Done,
        Err(End::Refused(fault)) => Status::Refused(fault),
        Err(End::Unfit(limit)) => Status::Unfit(limit),
        Err(End::WriteFault) => Status::WriteFault,
        Err(End::NoMemory) => Status::NoMemory,
    }
}

/// Does what a command says that reads its input, with all of that in hand.
fn answer_bytes<O: Sink>(alloc: Global, command: &Command, bytes: &[u8], output: &mut O) -> Status
    requires few { length bytes.now ≤ most_bytes (command_seen command.now) }
    requires reads { Reads (command_seen command.now) }
    ensures told { Tells (command_seen command.now) (Some bytes.now) (O.held output.old) (O.held output.new) result }
    ensures nothing { WritesNothing result output.old output.new }
    ensures fault { result ≡ Status.WriteFault → Rose (O.faults output.old) (O.faults output.new) }
    ensures no_usage { result ≡ Status.Usage → ⊥ }
    ensures no_read_fault { result ≡ Status.ReadFault → ⊥ }
{
    match command {
        Command::Show => show_bytes(alloc, bytes, output),
        Command::Check => check_bytes(alloc, bytes, output),
        Command::Translate(job) => translate_bytes(alloc, job, bytes, output),
        Command::ToUnicode => unicode_bytes(alloc, bytes, output),
        Command::Edit(edits) => edit_bytes(alloc, edits, bytes, output),
        Command::ToJson => json_bytes(alloc, bytes, output),
        Command::FromJson => tree_bytes(alloc, bytes, output),
        Command::Sample(_) => unreachable!(),
    }
}

/// The most bytes of an input that a command reads.
fn limit_of(command: &Command) -> usize
    ensures most { Reads (command_seen command.now) → result ≡ most_bytes (command_seen command.now) }
    ensures few { result ≤ MOST_BYTES }
{
    match command {
        Command::Show => LIMIT,
        Command::Check => LIMIT,
        Command::Translate(_) => LIMIT,
        Command::ToUnicode => LIMIT,
        Command::Edit(_) => LIMIT,
        Command::ToJson => LIMIT,
        Command::FromJson => JSON_LIMIT,
        Command::Sample(_) => 0,
    }
}

/// Reads all of the input, and does with it what a command says.
fn answer_input<I: Source, O: Sink>(
    alloc: Global,
    command: &Command,
    input: &mut I,
    output: &mut O,
) -> Status
    requires { Reads (command_seen command.now) }
    ensures reads { Reads (command_seen command.now) }
    ensures told { Tells (command_seen command.now) (I.left input.old) (O.held output.old) (O.held output.new) result }
    ensures bounded { Takes (I.left input.old) (I.left input.new) (most_bytes (command_seen command.now) + 1) }
    ensures end { result ≡ Status.Done → IsAtEnd (I.left input.new) }
    ensures nothing { WritesNothing result output.old output.new }
    ensures read_fault { result ≡ Status.ReadFault → Rose (I.faults input.old) (I.faults input.new) }
    ensures write_fault { result ≡ Status.WriteFault → Rose (O.faults output.old) (O.faults output.new) }
    ensures no_usage { result ≡ Status.Usage → ⊥ }
{
    inputs_are_exact();
    let limit = limit_of(command);
    match read_all(alloc, input, limit) {
        Ok(bytes) => answer_bytes(alloc, command, &bytes, output),
        Err(ReadEnd::ReadFault) => Status::ReadFault,
        Err(ReadEnd::NoMemory) => Status::NoMemory,
        Err(ReadEnd::TooLong) => Status::Refused(Fault {
            reason: Reason::InputTooLong,
            offset: limit as u64,
        }),
    }
}

/// Does what the words say, but for the report.
fn answer<I: Source, O: Sink>(
    alloc: Global,
    words: &[String],
    input: &mut I,
    output: &mut O,
) -> Status
    ensures usage { result ≡ Status.Usage → command_of (texts words.now) ≡ None }
    ensures known { command_of (texts words.now) ≡ None → (result ≡ Status.Usage) ⊎ (result ≡ Status.NoMemory) }
    ensures unread { result ≡ Status.Usage → input.new ≡ input.old }
    ensures told { (command : plain.Command) → command_of (texts words.now) ≡ Some command → Tells command (I.left input.old) (O.held output.old) (O.held output.new) result }
    ensures answered { (command : plain.Command) → command_of (texts words.now) ≡ Some command → Answers command (I.left input.old) result }
    ensures end { (command : plain.Command) → command_of (texts words.now) ≡ Some command → result ≡ Status.Done → LeavesAtDone command (I.left input.old) (I.left input.new) }
    ensures unused { (n : ℕ) → command_of (texts words.now) ≡ Some (plain.sample n) → input.new ≡ input.old }
    ensures bounded { Takes (I.left input.old) (I.left input.new) (MOST_BYTES + 1) }
    ensures within { (command : plain.Command) → command_of (texts words.now) ≡ Some command → Takes (I.left input.old) (I.left input.new) (most_bytes command + 1) }
    ensures nothing { WritesNothing result output.old output.new }
    ensures read_fault { result ≡ Status.ReadFault → Rose (I.faults input.old) (I.faults input.new) }
    ensures write_fault { result ≡ Status.WriteFault → Rose (O.faults output.old) (O.faults output.new) }
{
    match job_of(alloc, words) {
        Err(_) => Status::NoMemory,
        Ok(None) => Status::Usage,
        Ok(Some(Command::Sample(number))) => write_sample(alloc, number, output),
        Ok(Some(command)) => answer_input(alloc, &command, input, output),
    }
}

/// Does what the words behind the program's name say: reads the input to its end where they are a command that reads, writes
/// the result to the output, and one line about other ends than Done to the report. The answer says how it ended; a report
/// that fails changes nothing of it. Inputs have at most 268,435,456 bytes, JSON texts 33,554,432.
pub fn run<I: Source, O: Sink, E: Sink>(
    alloc: Global,
    words: &[String],
    input: &mut I,
    output: &mut O,
    report: &mut E,
) -> Status
    // The words decide, before anything is read; for a sample nothing is.
    ensures usage { result ≡ Status.Usage → command_of (texts words.now) ≡ None }
    ensures known { command_of (texts words.now) ≡ None → (result ≡ Status.Usage) ⊎ (result ≡ Status.NoMemory) }
    ensures unread { result ≡ Status.Usage → input.new ≡ input.old }
    ensures unused { (n : ℕ) → command_of (texts words.now) ≡ Some (plain.sample n) → input.new ≡ input.old }

    // Of a command: what the status says, and the answers that there are. What is said of an input is said of one that tells
    // its bytes.
    ensures told { (command : plain.Command) → command_of (texts words.now) ≡ Some command → Tells command (I.left input.old) (O.held output.old) (O.held output.new) result }
    ensures answered { (command : plain.Command) → command_of (texts words.now) ≡ Some command → Answers command (I.left input.old) result }
    ensures end { (command : plain.Command) → command_of (texts words.now) ≡ Some command → result ≡ Status.Done → LeavesAtDone command (I.left input.old) (I.left input.new) }
    ensures bounded { Takes (I.left input.old) (I.left input.new) (MOST_BYTES + 1) }
    ensures within { (command : plain.Command) → command_of (texts words.now) ≡ Some command → Takes (I.left input.old) (I.left input.new) (most_bytes command + 1) }

    // What excuses it, and that nothing is written but by Done and WriteFault.
    ensures nothing { WritesNothing result output.old output.new }
    ensures read_fault { result ≡ Status.ReadFault → Rose (I.faults input.old) (I.faults input.new) }
    ensures write_fault { result ≡ Status.WriteFault → Rose (O.faults output.old) (O.faults output.new) }

    // The report gets its line, or a front of it where it failed.
    ensures report { Reports (E.held report.old) (E.held report.new) (E.faults report.old) (E.faults report.new) (line_of result) }
{
    let status = answer(alloc, words, input, output);
    let _ = write_report(report, &status);
    status
}
