//! Paths in OLE stores.
ghost use Rattle.std.specs.Prelude.{◌≡◌, false, nat_lt, map, length};
ghost use Rattle.json_model.specs.StoreForms.{path_json};
ghost use Rattle.json_model.specs.Texts.{name_json};
ghost use Rattle.json_writer.specs.Counted.{Counts};
ghost use Rattle.serde_json.specs.Written.{compact_text};
ghost use Rattle.tree_json.specs.Lists.{behind};
ghost use Rattle.tree_json.specs.Paths.{names_in};

use carrier_io::{Failed, Sink};
use json_writer::{append, append_name, separator};

/// The names from a store down to a member.
#[derive(Drop)]
pub(crate) enum Path<'p> {
    /// The store itself.
    Top,
    /// What stands under a name in the storage of a path.
    Under(&'p Path<'p>, &'p [u16]),
}

/// Whether a path has names.
fn has_names(path: &Path) -> bool
    ensures { result ≡ nat_lt 0 (length (names_in path.now)) }
{
    match path {
        Path::Top => false,
        Path::Under(..) => true,
    }
}

/// Appends the names of a path with commas between them.
fn write_names<W: Sink>(sink: &mut W, count: &mut u64, path: &Path) -> Result<(), Failed>
    ensures { Counts (W.held sink.old) (W.held sink.new) (W.faults sink.old) (W.faults sink.new) count.old count.new result (behind false (map name_json (names_in path.now))) }
{
    match path {
        Path::Top => append(sink, count, b""),
        Path::Under(above, name) => {
            write_names(sink, count, above)?;
            append(sink, count, separator(has_names(above)))?;
            append_name(sink, count, name)
        }
    }
}

/// Appends the names of a path.
pub(crate) fn write_path<W: Sink>(sink: &mut W, count: &mut u64, path: &Path) -> Result<(), Failed>
    ensures { Counts (W.held sink.old) (W.held sink.new) (W.faults sink.old) (W.faults sink.new) count.old count.new result (compact_text (path_json (names_in path.now))) }
{
    append(sink, count, b"[")?;
    write_names(sink, count, path)?;
    append(sink, count, b"]")
}
