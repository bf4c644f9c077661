//! Going on with a run that was saved.

ghost use Rattle.std.specs.Prelude.{◌<◌, IfOk};
ghost use Rattle.trips_grid_answers.specs.Saved.{IsResumed};

use crate::gridded::run_from;
use crate::refusals::refused;
use grid_cycle::Conditions;
use machine_save::open_save;
use std::alloc::{AllocError, Global};
use trips_report::Show;
use trips_requests::Answer;

/// Goes on with the run that the bytes save, on the grid under these conditions and for as many blocks as are allowed,
/// and tells how it ended and what is shown of this part; or says why the bytes save nothing. Want of memory is the
/// only error.
pub fn resumed(
    alloc: Global,
    bytes: &[u8],
    conditions: Conditions,
    most: u32,
    show: Show,
) -> Result<Answer, AllocError>
    requires some { 0 < most }
    ensures { IfOk result (λ answer. IsResumed bytes.now conditions most show answer.status answer.report.items) }
{
    match open_save(alloc, bytes, most) {
        Ok((image, arch)) => run_from(alloc, image, arch, conditions, most, show),
        Err(fault) => refused(alloc, fault),
    }
}
