//! The statuses, and the number of each.

ghost use Rattle.std.specs.Prelude.{◌≡◌};
ghost use Rattle.std.specs.Process.{exit_status};
ghost use Rattle.trips_requests.specs.inside.ExitCodes.{number_of};

use std::process::ExitCode;

/// How the program ended, by its exit status.
#[derive(Clone, Copy, Debug, PartialEq, Eq)]
pub enum Status {
    Ended = 0,
    Usage = 2,
    ReadFault = 3,
    Refused = 4,
    Budget = 5,
    StackFull = 6,
    WriteFault = 7,
    Memory = 8,
    Trap = 9,
    Undefined = 10,
    Aborted = 11,
}

/// What `main` ends with: the status as its number.
pub fn exit_code(status: Status) -> ExitCode
    ensures { exit_status result ≡ number_of status }
{
    ExitCode::from(status as u8)
}
