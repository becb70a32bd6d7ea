//! Values of every kind.
ghost use Rattle.carrier_io.specs.Known.{Writes};
ghost use Rattle.carrier_model.specs.Values.{IsValue};
ghost use Rattle.text_model.specs.ValueTexts.{value_text};
ghost use Rattle.prop_values.specs.Meaning.{value_of};

use crate::elements::write_list;
use crate::numbers::write_number;
use crate::quoted::write_bytes;
use carrier_io::{Blob, Failed, Sink};
use prop_names::print_guid;
use prop_values::Value;

/// Appends a value. A failure was counted by the sink.
pub fn write_value<B: Blob, W: Sink>(sink: &mut W, value: &Value<B>) -> Result<(), Failed>
    requires { IsValue (value_of B.bytes value.now) }
    ensures { Writes (W.held sink.old) (W.held sink.new) (W.faults sink.old) (W.faults sink.new) result (value_text (value_of B.bytes value.now)) }
{
    match value {
        Value::Number { kind, bits } => write_number(sink, *kind, *bits),
        Value::Guid(set) => print_guid(set, sink),
        Value::Bytes { kind, bytes } => write_bytes(sink, *kind, bytes),
        Value::Numbers { .. } => write_list(sink, value),
        Value::Guids(_) => write_list(sink, value),
        Value::Parts { .. } => write_list(sink, value),
    }
}
