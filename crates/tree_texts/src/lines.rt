//! Lines, and what several of them have.
ghost use Rattle.std.specs.Prelude.{◌≤◌, replicate};
ghost use Rattle.carrier_io.specs.Known.{Writes};
ghost use Rattle.text_model.specs.TreeTexts.{line, counted};
ghost use Rattle.tree_texts.specs.Sizes.{size_line};

use carrier_io::{Failed, Sink, write_parts, write_pieces};
use prop_names::write_decimal;

/// Room for the spaces before a line.
const MOST_SPACES: usize = 160;

static SPACES: [u8; MOST_SPACES] = [b' '; MOST_SPACES];

/// Appends so many spaces.
#[inline(always)]
pub fn write_indent<W: Sink>(sink: &mut W, indent: usize) -> Result<(), Failed>
    requires { indent ≤ 160 }
    ensures { Writes (W.held sink.old) (W.held sink.new) (W.faults sink.old) (W.faults sink.new) result (replicate indent 0x20) }
{
    write_pieces(sink, &SPACES[..indent])
}

/// Appends a line of a word.
pub fn write_word_line<W: Sink>(sink: &mut W, indent: usize, word: &[u8]) -> Result<(), Failed>
    requires { indent ≤ 160 }
    ensures { Writes (W.held sink.old) (W.held sink.new) (W.faults sink.old) (W.faults sink.new) result (line indent word.now) }
{
    write_indent(sink, indent)?;
    write_parts(sink, &[word, b"\n"])
}

/// Appends a word and a number. Failed says that the sink failed; then a front of them may stand there.
pub fn write_counted<W: Sink>(sink: &mut W, word: &[u8], n: u64) -> Result<(), Failed>
    ensures { Writes (W.held sink.old) (W.held sink.new) (W.faults sink.old) (W.faults sink.new) result (counted word.now n) }
{
    write_parts(sink, &[word, b" "])?;
    write_decimal(sink, n)
}

/// Appends a line of a word and a number.
pub fn write_counted_line<W: Sink>(
    sink: &mut W,
    indent: usize,
    word: &[u8],
    n: u64,
) -> Result<(), Failed>
    requires { indent ≤ 160 }
    ensures { Writes (W.held sink.old) (W.held sink.new) (W.faults sink.old) (W.faults sink.new) result (line indent (counted word.now n)) }
{
    write_indent(sink, indent)?;
    write_counted(sink, word, n)?;
    write_pieces(sink, b"\n")
}

/// Appends a line of a word and a number. A failure was counted by the sink.
pub fn write_count<W: Sink>(sink: &mut W, word: &[u8], n: u64) -> Result<(), Failed>
    ensures { Writes (W.held sink.old) (W.held sink.new) (W.faults sink.old) (W.faults sink.new) result (line 0 (counted word.now n)) }
{
    write_counted_line(sink, 0, word, n)
}

/// Appends a line of a word, how many bytes there are, and their sum. A failure was counted by the sink.
pub fn write_size<W: Sink>(sink: &mut W, word: &[u8], len: u64, sum: u16) -> Result<(), Failed>
    ensures { Writes (W.held sink.old) (W.held sink.new) (W.faults sink.old) (W.faults sink.new) result (size_line word.now len sum) }
{
    write_counted(sink, word, len)?;
    write_counted(sink, b" bytes sum", u64::from(sum))?;
    write_pieces(sink, b"\n")
}
