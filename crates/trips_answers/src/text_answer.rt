//! `run`, `compile` and `compile --listing` on a text of C.

ghost use Rattle.std.specs.Prelude.{◌≡◌, ◌<◌, ℕ, List, length, IfOk};
ghost use Rattle.block_image.specs.Spelling.{ImageBytes};
ghost use Rattle.trips_answers.specs.Work.{Run, Compile, Listing};
ghost use Rattle.trips_answers.specs.declared.forms.FileForm.{FileForm};
ghost use Rattle.trips_answers.specs.declared.forms.FileForm.TheVariants as form;
ghost use Rattle.trips_answers.specs.declared.forms.Settings.{Settings};
ghost use Rattle.c_meaning_spec.specs.Laws.{IsInput};
ghost use Rattle.trips_answers.specs.Worked.{IsDone};

use crate::forms::Settings;
use crate::gridded::run_image;
use base::{Items, Memory};
use block_check::CheckedImage;
use block_image::encode;
use c_compile::compile_unrolled;
use grid_place::Placing;
use std::alloc::{AllocError, Global};
use trips_eval_answers::stage_refused;
use trips_listing_answers::listing_answer;
use trips_requests::{Answer, Status};

// Bytes are an input of a program.
fn is_input(input: &[u8])
    ensures { IsInput input.now }
{}

/// What `run` answers for a text of C and an input: its program is compiled, and its image runs.
pub fn text_answer(
    alloc: Global,
    text: &[u8],
    input: Items<u8>,
    settings: Settings,
) -> Result<Answer, AllocError>
    requires few { length text.now < 4_294_967_295 }
    requires some { 0 < settings.most }
    requires turns { 0 < settings.unroll }
    ensures { IfOk result (λ answer. IsDone Run form.Source settings text.now input answer.status
        answer.report.items) }
{
    match compile_unrolled(alloc, text, settings.placing, settings.unroll) {
        Ok(image) => {
            is_input(input.as_slice());
            run_image(alloc, image, input, settings)
        }
        Err(refusal) => stage_refused(alloc, text, refusal),
    }
}

// The bytes of an image that was compiled.
fn image_bytes(alloc: Global, image: &CheckedImage) -> Result<Vec<u8>, Memory>
    ensures { IfOk result (λ bytes. ImageBytes image.now bytes.items) }
{
    let copy = image.copy_out(alloc)?;
    encode(alloc, &copy)
}

// They are written.
fn image_written(alloc: Global, image: &CheckedImage) -> Result<Answer, AllocError>
    ensures { IfOk result (λ answer. ImageBytes image.now answer.report.items
        × (answer.status ≡ Status.Ended)) }
{
    match image_bytes(alloc, image) {
        Ok(report) => Ok(Answer {
            status: Status::Ended,
            report,
        }),
        Err(_) => Err(AllocError),
    }
}

/// What `compile` answers for a text of C: the bytes of its image.
pub fn text_compiled(
    alloc: Global,
    source: &[u8],
    placing: Placing,
    unroll: u8,
) -> Result<Answer, AllocError>
    requires few { length source.now < 4_294_967_295 }
    requires turns { 0 < unroll }
    ensures { IfOk result (λ answer. (form : FileForm) (settings : Settings) (input : List ℕ)
        → settings.placing ≡ placing → settings.unroll ≡ unroll
        → IsDone Compile form settings source.now input answer.status answer.report.items) }
{
    match compile_unrolled(alloc, source, placing, unroll) {
        Ok(image) => image_written(alloc, &image),
        Err(refusal) => stage_refused(alloc, source, refusal),
    }
}

/// What `compile --listing` answers for a text of C: the target text of its image, with comments.
pub fn text_listed(
    alloc: Global,
    source: &[u8],
    placing: Placing,
    unroll: u8,
) -> Result<Answer, AllocError>
    requires few { length source.now < 4_294_967_295 }
    requires turns { 0 < unroll }
    ensures { IfOk result (λ answer. (form : FileForm) (settings : Settings) (input : List ℕ)
        → settings.placing ≡ placing → settings.unroll ≡ unroll
        → IsDone Listing form settings source.now input answer.status answer.report.items) }
{
    match listing_answer(alloc, source, placing, unroll) {
        Ok(report) => Ok(Answer {
            status: Status::Ended,
            report,
        }),
        Err(refusal) => stage_refused(alloc, source, refusal),
    }
}
