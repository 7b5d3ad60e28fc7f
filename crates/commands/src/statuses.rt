//! How a call of the program ended.

ghost use Rattle.std.specs.Prelude.{◌≡◌};
ghost use Rattle.std.specs.Process.{exit_status};
ghost use Rattle.commands.specs.Statuses.{status_after, status_code};

use dcp_io::Delivery;
use std::process::ExitCode;

/// How a call ended. The exit status of the program is the variant's number, from 0.
#[derive(Clone, Copy, Debug, PartialEq, Eq)]
pub enum Status {
    /// The command succeeded, and all was written.
    Done,
    /// The words name no command.
    Usage,
    /// The input was read to its end, or to one byte past its limit, and its form is refused. It stays
    /// so where the line that says why could not be written.
    BadInput,
    /// A simulation failed, and its report was written.
    RunFailed,
    /// The source failed.
    ReadFault,
    /// A sink failed while the result was written.
    WriteFault,
    /// The network failed.
    NetFault,
    /// Memory was refused.
    OutOfMemory,
    /// A trace differs from what its scenario gives, or breaks off.
    Differs,
}

impl Status {
    /// The number of the exit status, 0 to 8.
    pub fn code(self) -> u8
        ensures { result ≡ status_code self }
    {
        match self {
            Status::Done => 0,
            Status::Usage => 1,
            Status::BadInput => 2,
            Status::RunFailed => 3,
            Status::ReadFault => 4,
            Status::WriteFault => 5,
            Status::NetFault => 6,
            Status::OutOfMemory => 7,
            Status::Differs => 8,
        }
    }

    /// The exit status of the process.
    pub fn exit_code(self) -> ExitCode
        ensures { exit_status result ≡ status_code self }
    {
        ExitCode::from(self.code())
    }
}

/// What a command makes of an input.
#[derive(Clone, Copy, Debug, PartialEq, Eq)]
pub enum Judgement {
    /// The form of the input is good, and what is said is the command's result.
    Good,
    /// The form of the input is good, and what is said is how the simulation failed.
    Failed,
    /// The trace does not go through, and what is said is where it stops.
    Differs,
    /// The form of the input is refused, and what is said is the line that names the place and the
    /// reason.
    Refused,
}

impl Judgement {
    /// The status after what was said was delivered so. A refusal stays one where its line could not
    /// be written.
    pub fn status(self, delivery: Delivery) -> Status
        ensures { result ≡ status_after self delivery }
    {
        match (self, delivery) {
            (Judgement::Good, Delivery::Whole) => Status::Done,
            (Judgement::Failed, Delivery::Whole) => Status::RunFailed,
            (Judgement::Differs, Delivery::Whole) => Status::Differs,
            (Judgement::Good | Judgement::Failed | Judgement::Differs, Delivery::Cut) => {
                Status::WriteFault
            }
            (Judgement::Refused, _) => Status::BadInput,
        }
    }
}
