//! How a command ends.
use carrier_io::Fault;
use msg_tree::Limit;
use tree_edit::EditFault;
use tree_from_json::JsonFault;
use tree_text8::Unmapped;

/// How a command ended.
#[derive(Debug, Drop)]
pub enum Status {
    /// All was written.
    Done,
    /// The input's first fault.
    Refused(Fault),
    /// The words of the command are none that it knows.
    Usage,
    /// The first text that its code page doesn't map.
    Unmapped(Unmapped),
    /// The first edit that can't be done.
    Edit(EditFault),
    /// The first fault of a JSON text.
    Json(JsonFault),
    /// The message passes a limit of the target.
    Unfit(Limit),
    /// The input couldn't be read.
    ReadFault,
    /// The output couldn't be written.
    WriteFault,
    /// Memory was refused.
    NoMemory,
}

impl Status {
    ghost use Rattle.std.specs.Prelude.{◌≡◌};
    ghost use Rattle.job_model.specs.ReportTexts.{exit_code};
    ghost use Rattle.outlook_status.specs.Report.{ending_of};

    /// The exit code of the program.
    pub fn code(&self) -> u8
        ensures { result ≡ exit_code (ending_of self.now) }
    {
        match self {
            Status::Done => 0,
            Status::Refused(_) => 1,
            Status::Usage => 2,
            Status::Unmapped(_) => 7,
            Status::Json(_) => 8,
            Status::Edit(_) => 9,
            Status::Unfit(_) => 3,
            Status::ReadFault => 4,
            Status::WriteFault => 5,
            Status::NoMemory => 6,
        }
    }
}
