//! `save` on a text of C, on the bytes of an image and on a target text.

ghost use Rattle.std.specs.Prelude.{◌≡◌, ◌<◌, ◌≤◌, IfOk, length};
ghost use Rattle.trips_isa.specs.Images.{FitsImage};
ghost use Rattle.trips_requests.specs.Limits.{most_count};
ghost use Rattle.trips_answers.specs.Asks.{most_input_bytes};
ghost use Rattle.trips_answers.specs.Work.{Save};
ghost use Rattle.trips_answers.specs.declared.forms.FileForm.TheVariants as form;
ghost use Rattle.trips_answers.specs.Worked.{IsDone};
ghost use Rattle.trips_answers.specs.inside.Checked.{IsSaveOfChecked};
ghost use Rattle.trips_grid_answers.specs.Saved.{IsSavedRun};

use crate::forms::Settings;
use base::Items;
use block_check::{CheckedImage, ImageRefusal};
use block_image::{ImageFault, decode};
use c_compile::compile_unrolled;
use std::alloc::{AllocError, Global};
use target_asm::AsmFault;
use target_file::assemble_file;
use trips_eval_answers::stage_refused;
use trips_grid_answers::saved_run;
use trips_isa::Image;
use trips_report::Said;
use trips_requests::Answer;
use trips_tools::refused;

// Saves the run of an image, on the grid of the settings' seed and behind so many blocks.
#[tactic(auto, unfolding(crate::specs::Asks::most_input_bytes))]
fn image_saved(
    alloc: Global,
    image: CheckedImage,
    input: Items<u8>,
    settings: Settings,
) -> Result<Answer, AllocError>
    requires some { 0 < settings.most }
    requires most { settings.most ≤ most_count }
    requires input { length input ≤ most_input_bytes }
    ensures { IfOk result (λ answer.
        IsSavedRun image input settings.most answer.status answer.report.items) }
{
    saved_run(alloc, image, input, settings.seed, settings.most)
}

/// What `save` answers for a text of C and an input: its program is compiled, and the run of its image is saved.
pub fn text_saved(
    alloc: Global,
    text: &[u8],
    input: Items<u8>,
    settings: Settings,
) -> Result<Answer, AllocError>
    requires few { length text.now < 4_294_967_295 }
    requires some { 0 < settings.most }
    requires most { settings.most ≤ most_count }
    requires turns { 0 < settings.unroll }
    requires input { length input ≤ most_input_bytes }
    ensures { IfOk result (λ answer. IsDone Save form.Source settings text.now input answer.status
        answer.report.items) }
{
    match compile_unrolled(alloc, text, settings.placing, settings.unroll) {
        Ok(image) => image_saved(alloc, image, input, settings),
        Err(refusal) => stage_refused(alloc, text, refusal),
    }
}

// Saves the run of an image where its blocks are good.
fn checked_saved(
    alloc: Global,
    image: Image,
    input: Items<u8>,
    settings: Settings,
) -> Result<Answer, AllocError>
    requires fits { FitsImage image }
    requires some { 0 < settings.most }
    requires most { settings.most ≤ most_count }
    requires input { length input ≤ most_input_bytes }
    ensures { IfOk result (λ answer.
        IsSaveOfChecked image settings input answer.status answer.report.items) }
{
    match CheckedImage::make(alloc, image) {
        Ok(checked) => image_saved(alloc, checked, input, settings),
        Err(ImageRefusal::Bad(number, fault)) => refused(alloc, Said::Check(number, fault)),
        Err(ImageRefusal::Memory) => Err(AllocError),
    }
}

/// What `save` answers for the bytes of an image's file and an input.
pub fn bytes_saved(
    alloc: Global,
    bytes: &[u8],
    input: Items<u8>,
    settings: Settings,
) -> Result<Answer, AllocError>
    requires some { 0 < settings.most }
    requires most { settings.most ≤ most_count }
    requires input { length input ≤ most_input_bytes }
    ensures { IfOk result (λ answer. IsDone Save form.Image settings bytes.now input answer.status
        answer.report.items) }
{
    match decode(alloc, bytes) {
        Ok(image) => checked_saved(alloc, image, input, settings),
        Err(ImageFault::Memory) => Err(AllocError),
        Err(fault) => refused(alloc, Said::Image(fault)),
    }
}

/// What `save` answers for a target text and an input: the run of its image is saved.
pub fn target_saved(
    alloc: Global,
    text: &[u8],
    input: Items<u8>,
    settings: Settings,
) -> Result<Answer, AllocError>
    requires some { 0 < settings.most }
    requires most { settings.most ≤ most_count }
    requires input { length input ≤ most_input_bytes }
    ensures { IfOk result (λ answer. IsDone Save form.Target settings text.now input answer.status
        answer.report.items) }
{
    match assemble_file(alloc, text) {
        Ok(image) => checked_saved(alloc, image, input, settings),
        Err(AsmFault::Memory) => Err(AllocError),
        Err(fault) => refused(alloc, Said::Asm(fault)),
    }
}
