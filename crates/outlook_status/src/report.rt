//! The line of the report.
ghost use Rattle.std.specs.Prelude.{◌≡◌, ◌++◌, ◌∷◌, [], codes};
ghost use Rattle.carrier_io.specs.Known.{Writes};
ghost use Rattle.carrier_io.specs.Reasons.{fault_of};
ghost use Rattle.edit_model.specs.EditTexts.{edit_text, why_name};
ghost use Rattle.json_model.specs.Faults.{json_fault_text, path_text, shape_name};
ghost use Rattle.job_model.specs.ReportTexts.{fault_text, limit_text};
ghost use Rattle.text_model.specs.TreeTexts.{line};
ghost use Rattle.msg_tree.specs.Limiting.{limit_of};
ghost use Rattle.outlook_status.specs.Report.{line_of};
ghost use Rattle.text8_model.specs.Unmapped.{unmapped_text, why_text};
ghost use Rattle.tree_from_json.specs.Ends.{plain_fault as json_fault_of, why_of as json_why_of};
ghost use Rattle.tree_edit.specs.Meaning.{fault_of as edit_fault_of, why_of as edit_why_of};
ghost use Rattle.tree_text8.specs.Meaning.{unmapped_of, why_of};

use crate::status::Status;
use carrier_io::{
    Failed, Fault, Numbers, Sink, Writing, write_gathered, write_parts, write_pieces,
};
use msg_tree::Limit;
use prop_names::write_decimal;
use tree_edit::{EditFault, EditWhy};
use tree_from_json::{JsonFault, JsonWhy};
use tree_text8::{Unmapped, Why};
use tree_texts::{write_count, write_counted, write_slashed};

/// Appends the line of a refusal: the reason's number and name, and the place in bytes from the input's first.
fn write_refusal<W: Sink>(sink: &mut W, fault: Fault) -> Result<(), Failed>
    ensures { Writes (W.held sink.old) (W.held sink.new) (W.faults sink.old) (W.faults sink.new) result (line 0 (fault_text (fault_of fault))) }
{
    write_counted(sink, b"refused", u64::from(fault.reason.number()))?;
    write_parts(sink, &[b" ", fault.reason.name().as_bytes(), b" at "])?;
    write_decimal(sink, fault.offset)?;
    write_pieces(sink, b"\n")
}

/// Appends the line of a limit that is passed, with the number that passes it.
fn write_limit<W: Sink>(sink: &mut W, limit: Limit) -> Result<(), Failed>
    ensures { Writes (W.held sink.old) (W.held sink.new) (W.faults sink.old) (W.faults sink.new) result (line 0 (limit_text (limit_of limit))) }
{
    match limit {
        Limit::Names(counted) => write_count(sink, b"unfit Names", counted),
        Limit::Recipients(counted) => write_count(sink, b"unfit Recipients", counted),
        Limit::Attachments(counted) => write_count(sink, b"unfit Attachments", counted),
        Limit::Size(counted) => write_count(sink, b"unfit Size", counted),
    }
}

/// The front of the line of a text that isn't mapped, which says why.
fn why_unmapped(why: Why) -> &'static [u8]
    ensures { result.now ≡ codes "unmapped " ++ why_text (why_of why) }
{
    match why {
        Why::Page => b"unmapped Page",
        Why::Byte => b"unmapped Byte",
    }
}

/// Appends the line of a text that its page doesn't map.
fn write_unmapped<W: Sink>(sink: &mut W, unmapped: Unmapped) -> Result<(), Failed>
    ensures { Writes (W.held sink.old) (W.held sink.new) (W.faults sink.old) (W.faults sink.new) result (line 0 (unmapped_text (unmapped_of unmapped))) }
{
    write_pieces(sink, why_unmapped(unmapped.why))?;
    write_counted(sink, b" property", unmapped.property)?;
    write_counted(sink, b" element", unmapped.element)?;
    write_counted(sink, b" at", unmapped.at)?;
    write_count(sink, b" page", u64::from(unmapped.page))
}

/// Why an edit can't be done, as the end of its line.
fn why_undone(why: EditWhy) -> &'static [u8]
    ensures { result.now ≡ codes " " ++ (why_name (edit_why_of why) ++ 10 ∷ []) }
{
    match why {
        EditWhy::NoPlace => b" NoPlace\n",
        EditWhy::NoProperty => b" NoProperty\n",
    }
}

/// Appends the line of an edit that can't be done.
fn write_undone<W: Sink>(sink: &mut W, fault: EditFault) -> Result<(), Failed>
    ensures { Writes (W.held sink.old) (W.held sink.new) (W.faults sink.old) (W.faults sink.new) result (line 0 (edit_text (edit_fault_of fault))) }
{
    write_counted(sink, b"edit", fault.edit)?;
    write_pieces(sink, why_undone(fault.why))
}

/// The front of the line of a JSON text that means no message, which says why.
fn why_no_tree(why: JsonWhy) -> &'static [u8]
    ensures { result.now ≡ codes "json " ++ (shape_name (json_why_of why) ++ codes " at ") }
{
    match why {
        JsonWhy::NotJson => b"json NotJson at ",
        JsonWhy::Form => b"json Form at ",
        JsonWhy::Kind => b"json Kind at ",
        JsonWhy::Digits => b"json Digits at ",
        JsonWhy::Range => b"json Range at ",
        JsonWhy::Order => b"json Order at ",
        JsonWhy::Deep => b"json Deep at ",
    }
}

/// Appends the steps of a path, each behind a slash, and a slash alone where there are none.
fn write_path<W: Sink>(sink: &mut W, path: &Numbers) -> Result<(), Failed>
    ensures { Writes (W.held sink.old) (W.held sink.new) (W.faults sink.old) (W.faults sink.new) result (path_text path.now) }
{
    if path.len() == 0 {
        return write_pieces(sink, b"/");
    }
    write_slashed(sink, path)
}

/// Appends the line of the first fault of a JSON text.
fn write_no_tree<W: Sink>(sink: &mut W, fault: &JsonFault) -> Result<(), Failed>
    ensures { Writes (W.held sink.old) (W.held sink.new) (W.faults sink.old) (W.faults sink.new) result (line 0 (json_fault_text (json_fault_of fault.now))) }
{
    write_pieces(sink, why_no_tree(fault.why))?;
    write_path(sink, &fault.path)?;
    write_pieces(sink, b"\n")
}

/// Appends the line of a status, part by part.
fn write_line<W: Sink>(sink: &mut W, status: &Status) -> Result<(), Failed>
    ensures { Writes (W.held sink.old) (W.held sink.new) (W.faults sink.old) (W.faults sink.new) result (line_of status.now) }
{
    match status {
        Status::Done => Ok(()),
        Status::Refused(fault) => write_refusal(sink, *fault),
        Status::Usage => write_pieces(
            sink,
            b"usage: show, check, to-msg, to-msg4, to-tnef, wrap, unwrap, to-unicode, to-json, from-json, edit EDITS, or sample N\n",
        ),
        Status::Unmapped(unmapped) => write_unmapped(sink, *unmapped),
        Status::Edit(fault) => write_undone(sink, *fault),
        Status::Json(fault) => write_no_tree(sink, fault),
        Status::Unfit(limit) => write_limit(sink, *limit),
        Status::ReadFault => write_pieces(sink, b"read fault\n"),
        Status::WriteFault => write_pieces(sink, b"write fault\n"),
        Status::NoMemory => write_pieces(sink, b"no memory\n"),
    }
}

/// The line of a status, as it is appended.
#[derive(Drop)]
struct Line<'a> {
    status: &'a Status,
}

impl<'a> Writing for Line<'a> {
    ghost use Rattle.outlook_status.specs.Report.{line_of};

    ghost text = { λ l. line_of l.status.now };

    fn write_to<W: Sink>(&self, sink: &mut W) -> Result<(), Failed> {
        write_line(sink, self.status)
    }
}

/// Appends the line of a status, in few calls of the sink. Failed says that the sink failed; then a front of it may stand
/// there.
pub fn write_report<W: Sink>(sink: &mut W, status: &Status) -> Result<(), Failed>
    ensures { Writes (W.held sink.old) (W.held sink.new) (W.faults sink.old) (W.faults sink.new) result (line_of status.now) }
{
    write_gathered(&Line { status }, sink)
}
