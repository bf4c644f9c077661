//! The run of a checked image on the grid, by the settings of a request.

ghost use Rattle.std.specs.Prelude.{◌<◌, IfOk};
ghost use Rattle.trips_answers.specs.Worked.{IsRunBy};

use crate::forms::Settings;
use base::Items;
use block_check::CheckedImage;
use std::alloc::{AllocError, Global};
use trips_requests::Answer;

/// Runs an image on an input, on the grid under the settings' conditions and for as many blocks as they allow, and
/// tells how its run ended and what is shown. Want of memory is the only error: each run ends within its cost.
pub fn run_image(
    alloc: Global,
    image: CheckedImage,
    input: Items<u8>,
    settings: Settings,
) -> Result<Answer, AllocError>
    requires some { 0 < settings.most }
    ensures { IfOk result (λ answer.
        IsRunBy image.blocks image.bytes input settings answer.status answer.report.items) }
{
    trips_grid_answers::run_image(
        alloc,
        image,
        input,
        settings.conditions,
        settings.most,
        settings.show,
    )
}
