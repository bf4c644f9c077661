//! The status of a run, by how it ended.

ghost use Rattle.std.specs.Prelude.{◌≡◌};
ghost use Rattle.trips_report.specs.Endings.{status_by};

use trips_isa::Ending;
use trips_requests::{Status, end_status};

/// The status that tells an ending, of register 3.
pub fn status_for(ending: Ending, word: u64) -> Status
    ensures { result ≡ status_by ending word }
{
    match ending {
        Ending::Ended => end_status(word),
        Ending::StackFull => Status::StackFull,
        Ending::Budget => Status::Budget,
        Ending::Trap { .. } => Status::Trap,
    }
}
