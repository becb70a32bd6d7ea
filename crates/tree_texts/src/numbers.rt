//! Numbers, by their kind.
ghost use Rattle.std.specs.List.{flat_map};
ghost use Rattle.std.specs.Prelude.{◌<◌, ◌++◌, codes, decimal};
ghost use Rattle.carrier_io.specs.Known.{Writes};
ghost use Rattle.carrier_model.specs.Values.{number_widths, width_in};
ghost use Rattle.text_model.specs.ValueTexts.{number_text, truth_text, signed_text};
ghost use Rattle.prop_values.specs.Kinds.{kind_number};

use carrier_io::{Failed, Numbers, Sink, write_pieces};
use prop_names::{upper_digits16, write_decimal};
use prop_values::Kind;

/// Appends the word of a Boolean.
fn write_truth<W: Sink>(sink: &mut W, bit: u64) -> Result<(), Failed>
    ensures { Writes (W.held sink.old) (W.held sink.new) (W.faults sink.old) (W.faults sink.new) result (truth_text bit) }
{
    if bit == 0 {
        return write_pieces(sink, b"false");
    }
    write_pieces(sink, b"true")
}

/// Appends a number with a slash before it.
fn write_step<W: Sink>(sink: &mut W, n: u64) -> Result<(), Failed>
    ensures { Writes (W.held sink.old) (W.held sink.new) (W.faults sink.old) (W.faults sink.new) result (codes "/" ++ decimal n) }
{
    write_pieces(sink, b"/")?;
    write_decimal(sink, n)
}

/// Appends numbers, with a slash before each. Failed says that the sink failed; then a front of them may stand there.
pub fn write_slashed<W: Sink>(sink: &mut W, list: &Numbers) -> Result<(), Failed>
    ensures { Writes (W.held sink.old) (W.held sink.new) (W.faults sink.old) (W.faults sink.new) result (flat_map (λ n. codes "/" ++ decimal n) list.now) }
{
    for k in 0..list.len() {
        write_step(sink, *list.get(k))?;
    }
    Ok(())
}

/// Appends a number with a minus before it.
fn write_negative<W: Sink>(sink: &mut W, n: u64) -> Result<(), Failed>
    ensures { Writes (W.held sink.old) (W.held sink.new) (W.faults sink.old) (W.faults sink.new) result (codes "-" ++ decimal n) }
{
    write_pieces(sink, b"-")?;
    write_decimal(sink, n)
}

/// Appends a number of 16 bits with a sign.
fn write_signed16<W: Sink>(sink: &mut W, n: u64) -> Result<(), Failed>
    ensures { Writes (W.held sink.old) (W.held sink.new) (W.faults sink.old) (W.faults sink.new) result (signed_text 2 n) }
{
    if n < 0x8000 {
        return write_decimal(sink, n);
    }
    write_negative(sink, 0x1_0000u64.saturating_sub(n))
}

/// Appends a number of 32 bits with a sign.
fn write_signed32<W: Sink>(sink: &mut W, n: u64) -> Result<(), Failed>
    ensures { Writes (W.held sink.old) (W.held sink.new) (W.faults sink.old) (W.faults sink.new) result (signed_text 4 n) }
{
    if n < 0x8000_0000 {
        return write_decimal(sink, n);
    }
    write_negative(sink, 0x1_0000_0000u64.saturating_sub(n))
}

/// Appends a number of 64 bits with a sign.
fn write_signed64<W: Sink>(sink: &mut W, n: u64) -> Result<(), Failed>
    ensures { Writes (W.held sink.old) (W.held sink.new) (W.faults sink.old) (W.faults sink.new) result (signed_text 8 n) }
{
    if n < 0x8000_0000_0000_0000 {
        return write_decimal(sink, n);
    }
    write_negative(sink, u64::MAX - n + 1)
}

/// Appends a number of the kind. A failure was counted by the sink.
pub fn write_number<W: Sink>(sink: &mut W, kind: Kind, bits: u64) -> Result<(), Failed>
    requires { 0 < width_in number_widths (kind_number kind) }
    ensures { Writes (W.held sink.old) (W.held sink.new) (W.faults sink.old) (W.faults sink.new) result (number_text (kind_number kind) bits) }
{
    match kind {
        Kind::Boolean => write_truth(sink, bits),
        Kind::Time => write_decimal(sink, bits),
        Kind::Floating32 => write_pieces(sink, &upper_digits16(bits)[8..]),
        Kind::ErrorCode => write_pieces(sink, &upper_digits16(bits)[8..]),
        Kind::Floating64 => write_pieces(sink, &upper_digits16(bits)),
        Kind::FloatingTime => write_pieces(sink, &upper_digits16(bits)),
        Kind::Integer16 => write_signed16(sink, bits),
        Kind::Integer32 => write_signed32(sink, bits),
        Kind::Currency => write_signed64(sink, bits),
        Kind::Integer64 => write_signed64(sink, bits),
        _ => unreachable!(),
    }
}
