//! The sample of a number.
ghost use Rattle.std.specs.Prelude.{◌≡◌, ◌≤◌, IfOk};
ghost use Rattle.carrier_io.specs.Causes.{Rose};
ghost use Rattle.carrier_io.specs.Known.{Writes};
ghost use Rattle.text_model.specs.SampleTrees.{GREATEST_SAMPLE, sample_tree};
ghost use Rattle.job_model.specs.SampleTexts.{bytes_line, sample_text};
ghost use Rattle.carrier_model.specs.Tree as plain;
ghost use Rattle.msg_model.specs.WrittenMsg.{msg_of};
ghost use Rattle.msg_tree.specs.Whole.{plain_of};
ghost use Rattle.outlook_cli.specs.Forms.{AreForms};
ghost use Rattle.outlook_cli.specs.Outcome.{IsText, WritesNothing};

use crate::telling::put_text;
use carrier_io::{Failed, NoMemory, Sink, Writing, sum_of};
use msg_tree::{Tree, names};
use outlook_status::Status;
use prop_names::NameSet;
use std::alloc::Global;
use translate_core::{MsgEnd, Trip, TripEnd, msg_bytes, trip};
use tree_samples::sample;
use tree_texts::{write_count, write_counts, write_size};

/// Appends the length of some bytes, and their sum modulo 65,536.
fn write_form<W: Sink>(sink: &mut W, word: &[u8], bytes: &[u8]) -> Result<(), Failed>
    ensures { Writes (W.held sink.old) (W.held sink.new) (W.faults sink.old) (W.faults sink.new) result (bytes_line word.now bytes.now) }
{
    write_size(sink, word, bytes.len() as u64, sum_of(bytes))
}

/// What is said of a sample: its number, the totals of its message, and each of its forms.
#[derive(Drop)]
struct Told<'t> {
    number: u32,
    tree: &'t Tree<Vec<u8>>,
    names: &'t NameSet,
    trip: &'t Trip,
    ghost own: { names.now ≡ plain.names_of (plain_of tree.now) },
}

impl<'t> Writing for Told<'t> {
    ghost use Rattle.outlook_cli.specs.Samples.{text_of};

    ghost text = { text_of };

    fn write_to<W: Sink>(&self, sink: &mut W) -> Result<(), Failed> {
        write_count(sink, b"sample", u64::from(self.number))?;
        write_counts(self.tree, self.names, sink)?;
        write_form(sink, b"tnef", &self.trip.tnef)?;
        write_form(sink, b"envelope", &self.trip.envelope)?;
        write_form(sink, b"msg", &self.trip.msg)
    }
}

/// The .msg file of a sample.
fn file_of(alloc: Global, number: u32, tree: &Tree<Vec<u8>>) -> Result<Vec<u8>, NoMemory>
    requires small { number ≤ GREATEST_SAMPLE }
    requires own { plain_of tree.now ≡ sample_tree number }
    ensures { IfOk result (λ v. v.items ≡ msg_of (sample_tree number)) }
{
    match msg_bytes(alloc, tree) {
        Ok(file) => Ok(file),
        Err(MsgEnd::NoMemory) => Err(NoMemory),
        Err(MsgEnd::Unfit(_)) => unreachable!(),
    }
}

/// What a sample's .msg file becomes on its way through all forms.
fn forms_of(alloc: Global, number: u32, file: &[u8]) -> Result<Trip, NoMemory>
    requires small { number ≤ GREATEST_SAMPLE }
    requires own { file.now ≡ msg_of (sample_tree number) }
    ensures { IfOk result (AreForms number) }
{
    match trip(alloc, file) {
        Ok(trip) => Ok(trip),
        Err(TripEnd::NoMemory) => Err(NoMemory),
        Err(TripEnd::Refused(_)) => unreachable!(),
        Err(TripEnd::Unfit { .. }) => unreachable!(),
    }
}

/// Makes the message of a number, sends it through all forms, and tells how much there is of it and of each form.
pub fn write_sample<O: Sink>(alloc: Global, number: u32, output: &mut O) -> Status
    requires { number ≤ GREATEST_SAMPLE }
    ensures told { IsText (sample_text number) (O.held output.old) (O.held output.new) result }
    ensures nothing { WritesNothing result output.old output.new }
    ensures fault { result ≡ Status.WriteFault → Rose (O.faults output.old) (O.faults output.new) }
    ensures no_usage { result ≡ Status.Usage → ⊥ }
    ensures no_read_fault { result ≡ Status.ReadFault → ⊥ }
{
    let Ok(tree) = sample(alloc, number) else {
        return Status::NoMemory;
    };
    let Ok(names) = names(alloc, &tree) else {
        return Status::NoMemory;
    };
    let Ok(file) = file_of(alloc, number, &tree) else {
        return Status::NoMemory;
    };
    let Ok(trip) = forms_of(alloc, number, &file) else {
        return Status::NoMemory;
    };
    let told = Told {
        number,
        tree: &tree,
        names: &names,
        trip: &trip,
    };
    put_text(&told, output)
}
