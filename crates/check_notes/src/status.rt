// How the program ends.
ghost use Rattle.std.specs.Prelude.{◌≡◌};
ghost use Rattle.std.specs.Process.{exit_status};
ghost use Rattle.check_notes.specs.Status.{status_number};

use std::process::ExitCode;

/// How the program ended. The process exits with this number.
#[derive(Clone, Copy, PartialEq, Eq)]
pub enum Status {
    /// The command did what it says.
    Done = 0,
    /// A report isn't sound.
    NotSound = 1,
    /// The command line is at fault.
    Usage = 2,
    /// The text stands for no model.
    ModelRefused = 3,
    /// A row of the model is no distribution over the region, or too wide.
    RowsRefused = 4,
    /// The source failed.
    ReadFault = 5,
    /// The sink failed. A part of the report may have been written.
    WriteFault = 6,
    /// The source gives more than 2^26 bytes.
    TooLong = 7,
    /// Memory ran out.
    Memory = 8,
}

/// The code that a process exits with.
pub fn exit_code(status: Status) -> ExitCode
    ensures { exit_status result ≡ status_number status }
{
    ExitCode::from(status as u8)
}
