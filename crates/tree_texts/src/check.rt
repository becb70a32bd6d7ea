//! How much there is in a tree, and what was passed over beside it.
ghost use Rattle.std.specs.Prelude.{◌≡◌};
ghost use Rattle.std.specs.List.{flat_map};
ghost use Rattle.carrier_io.specs.Known.{Writes};
ghost use Rattle.carrier_io.specs.Lists.{passed_of};
ghost use Rattle.carrier_model.specs.Tree as plain;
ghost use Rattle.text_model.specs.TreeTexts.{line, count_lines, passed_word, passed_line, carrier_word, check_text};
ghost use Rattle.msg_tree.specs.Whole.{plain_of};
ghost use Rattle.tree_texts.specs.Carriers.{carrier_of};

use crate::lines::{write_count, write_word_line};
use carrier_io::{Blob, Failed, Passed, PassedList, Sink, Writing, write_parts, write_pieces};
use msg_tree::{Tree, counts};
use prop_names::{NameSet, upper_digits8, write_decimal};

/// Which of the two carriers of a tree the bytes are.
#[derive(Clone, Copy, Debug, PartialEq, Eq)]
pub enum TreeCarrier {
    /// A .msg file. [MS-OXMSG]
    Msg,
    /// A TNEF stream. [MS-OXTNEF]
    Tnef,
}

/// Appends the line of the carrier.
fn write_carrier<W: Sink>(sink: &mut W, carrier: TreeCarrier) -> Result<(), Failed>
    ensures { Writes (W.held sink.old) (W.held sink.new) (W.faults sink.old) (W.faults sink.new) result (line 0 (carrier_word (carrier_of carrier))) }
{
    match carrier {
        TreeCarrier::Msg => write_word_line(sink, 0, b"carrier msg"),
        TreeCarrier::Tnef => write_word_line(sink, 0, b"carrier tnef"),
    }
}

/// Appends how much there is in a tree, over all its levels, where the names are the tree's. Failed says that the sink
/// failed; then a front of the text may stand there.
pub fn write_counts<B: Blob, W: Sink>(
    tree: &Tree<B>,
    names: &NameSet,
    sink: &mut W,
) -> Result<(), Failed>
    requires { names.now ≡ plain.names_of (plain_of tree.now) }
    ensures { Writes (W.held sink.old) (W.held sink.new) (W.faults sink.old) (W.faults sink.new) result (count_lines (plain_of tree.now)) }
{
    let totals = counts(tree);
    write_count(sink, b"messages", totals.messages)?;
    write_count(sink, b"recipients", totals.recipients)?;
    write_count(sink, b"attachments", totals.attachments)?;
    write_count(sink, b"properties", totals.properties)?;
    write_count(sink, b"names", names.len() as u64)?;
    write_count(sink, b"depth", totals.depth)
}

/// The front of the line of what was passed over.
fn word_of(passed: Passed) -> &'static [u8]
    ensures { result.now ≡ passed_word passed.attribute }
{
    if passed.attribute {
        b"passed attribute "
    } else {
        b"passed property "
    }
}

/// Appends the line of a thing that was passed over.
fn write_passed<W: Sink>(sink: &mut W, passed: Passed) -> Result<(), Failed>
    ensures { Writes (W.held sink.old) (W.held sink.new) (W.faults sink.old) (W.faults sink.new) result (passed_line (passed_of passed)) }
{
    write_parts(
        sink,
        &[word_of(passed), &upper_digits8(passed.what), b" at "],
    )?;
    write_decimal(sink, passed.offset)?;
    write_pieces(sink, b"\n")
}

/// Appends the line of each thing that was passed over.
fn write_all_passed<W: Sink>(sink: &mut W, passed: &PassedList) -> Result<(), Failed>
    ensures { Writes (W.held sink.old) (W.held sink.new) (W.faults sink.old) (W.faults sink.new) result (flat_map passed_line passed.now) }
{
    for k in 0..passed.len() {
        write_passed(sink, *passed.get(k))?;
    }
    Ok(())
}

/// Appends the carrier of a tree, how much there is in the tree, and what was passed over in reading order, where the
/// names are the tree's. Failed says that the sink failed; then a front of the text may stand there.
pub fn write_check<B: Blob, W: Sink>(
    carrier: TreeCarrier,
    tree: &Tree<B>,
    passed: &PassedList,
    names: &NameSet,
    sink: &mut W,
) -> Result<(), Failed>
    requires { names.now ≡ plain.names_of (plain_of tree.now) }
    ensures { Writes (W.held sink.old) (W.held sink.new) (W.faults sink.old) (W.faults sink.new) result (check_text (carrier_of carrier) (plain_of tree.now) passed.now) }
{
    write_carrier(sink, carrier)?;
    write_counts(tree, names, sink)?;
    write_all_passed(sink, passed)
}

/// The carrier of a tree, how much there is in it, and what was passed over, as it is appended.
#[derive(Drop)]
pub struct CheckText<'t, B: Blob> {
    carrier: TreeCarrier,
    tree: &'t Tree<B>,
    passed: &'t PassedList,
    names: &'t NameSet,
    ghost own: { names.now ≡ plain.names_of (plain_of tree.now) },
}

impl<'t, B: Blob> CheckText<'t, B> {
    ghost use Rattle.tree_texts.specs.CheckTexts.{text_of};

    /// The text of a tree, where the names are the tree's.
    pub fn new(
        carrier: TreeCarrier,
        tree: &'t Tree<B>,
        passed: &'t PassedList,
        names: &'t NameSet,
    ) -> CheckText<'t, B>
        requires { names.now ≡ plain.names_of (plain_of tree.now) }
        ensures { text_of result ≡ check_text (carrier_of carrier) (plain_of tree.now) passed.now }
    {
        CheckText {
            carrier,
            tree,
            passed,
            names,
        }
    }
}

impl<'t, B: Blob> Writing for CheckText<'t, B> {
    ghost use Rattle.tree_texts.specs.CheckTexts.{text_of};

    ghost text = { text_of };

    fn write_to<W: Sink>(&self, sink: &mut W) -> Result<(), Failed> {
        write_check(self.carrier, self.tree, self.passed, self.names, sink)
    }
}
