//! Kinds by their names. [MS-OXCDATA 2.11.1]
ghost use Rattle.std.specs.Prelude.{◌≡◌, bytes_eq, map};
ghost use Rattle.json_model.specs.Properties.{kind_among as plain_among, read_kind as plain_kind};
ghost use Rattle.prop_values.specs.Kinds.{kind_number};
ghost use Rattle.json_values.specs.View.{view};
ghost use Rattle.tree_from_json.specs.Ends.{Reads};
ghost use Rattle.tree_from_json.specs.KindRows.{kind_row};

use crate::read_ends::{JsonWhy, ReadEnd, fault_here};
use crate::read_parts::string;
use json_values::Value;
use prop_values::Kind;
use std::alloc::Global;

/// The kinds in the order of their numbers.
const KINDS: [Kind; 26] = [
    Kind::Integer16,
    Kind::Integer32,
    Kind::Floating32,
    Kind::Floating64,
    Kind::Currency,
    Kind::FloatingTime,
    Kind::ErrorCode,
    Kind::Boolean,
    Kind::Integer64,
    Kind::String8,
    Kind::String,
    Kind::Time,
    Kind::Guid,
    Kind::Binary,
    Kind::MultipleInteger16,
    Kind::MultipleInteger32,
    Kind::MultipleFloating32,
    Kind::MultipleFloating64,
    Kind::MultipleCurrency,
    Kind::MultipleFloatingTime,
    Kind::MultipleInteger64,
    Kind::MultipleString8,
    Kind::MultipleString,
    Kind::MultipleTime,
    Kind::MultipleGuid,
    Kind::MultipleBinary,
];

/// Whether a kind has the name.
fn has_name(kind: Kind, name: &str) -> bool
    ensures { result ≡ bytes_eq (kind_row kind).1 name.now }
{
    kind.name() == name
}

/// The first of some kinds that has the name.
fn kind_among(alloc: Global, kinds: &[Kind], name: &str) -> Result<Kind, ReadEnd>
    ensures { Reads kind_number (plain_among (map kind_row kinds.now) name.now) result }
{
    for kind in kinds {
        if has_name(*kind, name) {
            return Ok(*kind);
        }
    }
    Err(fault_here(alloc, JsonWhy::Kind))
}

/// A kind by its name.
pub(crate) fn read_kind(alloc: Global, value: &Value) -> Result<Kind, ReadEnd>
    ensures { Reads kind_number (plain_kind (view value.now)) result }
{
    kind_among(alloc, &KINDS, string(alloc, value)?)
}
