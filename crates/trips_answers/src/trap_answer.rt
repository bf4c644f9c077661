//! `explain --trap` on a text of C.

ghost use Rattle.std.specs.Prelude.{◌≡◌, ◌<◌, ◌++◌, ℕ, List, length, IfOk};
ghost use Rattle.trips_listing_answers.specs.Traps.{IsTrapTold};
ghost use Rattle.trips_answers.specs.Work.{Trap};
ghost use Rattle.trips_answers.specs.declared.forms.FileForm.{FileForm};
ghost use Rattle.trips_answers.specs.declared.forms.Settings.{Settings};
ghost use Rattle.trips_answers.specs.Worked.{IsDone};

use base::Items;
use std::alloc::{AllocError, Global};
use trips_explain_answers::file_explained;
use trips_listing_answers::trap_told;
use trips_requests::{Answer, Status};

// An explanation of an accepted text, and behind it what is told of a trap. Of a file that holds no C none is asked for.
fn with_trap(
    alloc: Global,
    explained: Answer,
    text: &[u8],
    input: Items<u8>,
    steps: u32,
) -> Result<Answer, AllocError>
    requires few { length text.now < 4_294_967_295 }
    ensures status { IfOk result (λ answer. answer.status ≡ explained.status) }
    ensures report { IfOk result (λ answer. (trap : List ℕ) × IsTrapTold text.now input steps trap
        × (answer.report.items ≡ explained.report.items ++ trap)) }
{
    match trap_told(alloc, text, input.into_vec(), steps) {
        Ok(trap) => {
            let Answer { status, mut report } = explained;
            report.extend_from_slice(&trap)?;
            Ok(Answer { status, report })
        }
        Err(_) => Err(AllocError),
    }
}

/// What `explain --trap` answers for a text of C and an input: what `explain` does, and behind that where in the text
/// the run of its image traps.
pub fn trap_explained(
    alloc: Global,
    file: &str,
    text: &[u8],
    input: Items<u8>,
    steps: u32,
) -> Result<Answer, AllocError>
    requires few { length text.now < 4_294_967_295 }
    ensures { IfOk result (λ answer. (form : FileForm) (settings : Settings) → settings.most ≡ steps
        → IsDone (Trap file.now) form settings text.now input answer.status answer.report.items) }
{
    let explained = file_explained(alloc, file, text, input.as_slice(), steps)?;
    if explained.status == Status::Ended {
        with_trap(alloc, explained, text, input, steps)
    } else {
        Ok(explained)
    }
}
