//! Values of properties. [MS-OXCDATA 2.11.1]
ghost use Rattle.std.specs.Prelude.{◌≡◌, ◌+◌, ◌*◌, ◌^◌};
ghost use Rattle.carrier_model.specs.Values.{number_widths, width_in};
ghost use Rattle.json_model.specs.Properties.{number_limit, read_value as plain_value};
ghost use Rattle.prop_values.specs.Kinds.{kind_number};
ghost use Rattle.prop_values.specs.Meaning.{value_of};
ghost use Rattle.prop_values.specs.Shapes.{IsWidth};
ghost use Rattle.json_values.specs.View.{view};
ghost use Rattle.tree_from_json.specs.Ends.{Reads};

use crate::read_digits::read_guid;
use crate::read_ends::ReadEnd;
use crate::read_lists::{read_bytes, read_guids, read_numbers, read_parts};
use crate::read_parts::number_up_to;
use json_values::Value as Json;
use prop_values::{Kind, Shape, Value};
use std::alloc::Global;

/// The greatest number of so many bytes.
fn greatest(width: usize) -> u64
    requires { IsWidth width }
    ensures { result + 1 ≡ 2 ^ (8 * width) }
{
    match width {
        2 => 0xffff,
        4 => 0xffff_ffff,
        _ => u64::MAX,
    }
}

/// The greatest number of a kind.
fn greatest_of(kind: Kind, width: usize) -> u64
    requires width { IsWidth width }
    requires kind { width_in number_widths (kind_number kind) ≡ width }
    ensures { result + 1 ≡ number_limit (kind_number kind) }
{
    match kind {
        Kind::Boolean => 1,
        _ => greatest(width),
    }
}

/// A value of a kind.
pub(crate) fn read_value(alloc: Global, kind: Kind, value: &Json) -> Result<Value<Vec<u8>>, ReadEnd>
    ensures { Reads (value_of (λ v. v.items)) (plain_value (kind_number kind) (view value.now)) result }
{
    match kind.shape() {
        Shape::Number(width) => {
            let bits = number_up_to(alloc, value, greatest_of(kind, width))?;
            Ok(Value::Number { kind, bits })
        }
        Shape::Guid => Ok(Value::Guid(read_guid(alloc, value)?)),
        Shape::Bytes => {
            let bytes = read_bytes(alloc, kind, value)?;
            Ok(Value::Bytes { kind, bytes })
        }
        Shape::Numbers(width) => {
            let list = read_numbers(alloc, value, greatest(width))?;
            Ok(Value::Numbers { kind, list })
        }
        Shape::Guids => Ok(Value::Guids(read_guids(alloc, value)?)),
        Shape::Parts(single) => {
            let list = read_parts(alloc, single, value)?;
            Ok(Value::Parts { kind, list })
        }
    }
}
