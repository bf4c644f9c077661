//! `draw` on the image that is made of a file.

ghost use Rattle.std.specs.Prelude.{◌<◌, ◌≤◌, List, ℕ, IfOk, length};
ghost use Rattle.trips_answers.specs.Work.{Draw};
ghost use Rattle.trips_answers.specs.Asks.{limit_of};
ghost use Rattle.trips_answers.specs.Worked.{IsDone};
ghost use Rattle.trips_answers.specs.inside.Made.{IsPlainlyTold};

use crate::forms::{FileForm, Settings};
use crate::four_programs::{NoImage, made_of};
use std::alloc::{AllocError, Global};
use trips_draw_answers::block_drawn;
use trips_requests::{Answer, Status};

// The answer where no image is made of a file; want of memory stays an error.
fn no_image(why: NoImage) -> Result<Answer, AllocError>
    ensures { IfOk result (λ answer. IsPlainlyTold why answer.status answer.report.items) }
{
    match why {
        NoImage::Refused(report) => Ok(Answer {
            status: Status::Refused,
            report,
        }),
        NoImage::Memory => Err(AllocError),
    }
}

/// What `draw` answers to the bytes of a file: the last of so many blocks of its image is drawn. It has no input.
pub fn draw_done(
    alloc: Global,
    form: FileForm,
    bytes: &[u8],
    settings: Settings,
) -> Result<Answer, AllocError>
    requires few { length bytes.now ≤ limit_of form }
    requires some { 0 < settings.most }
    requires turns { 0 < settings.unroll }
    ensures { IfOk result (λ answer. (input : List ℕ) → IsDone Draw form settings bytes.now input
        answer.status answer.report.items) }
{
    match made_of(alloc, form, bytes, settings) {
        Ok(image) => block_drawn(alloc, &image, settings.most),
        Err(why) => no_image(why),
    }
}
