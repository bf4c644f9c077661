//! `run` on the bytes of an image, and on a target text.

ghost use Rattle.std.specs.Prelude.{◌≡◌, ◌<◌, IfOk};
ghost use Rattle.trips_isa.specs.Images.{FitsImage};
ghost use Rattle.trips_answers.specs.Work.{Run};
ghost use Rattle.trips_answers.specs.declared.forms.FileForm.TheVariants as form;
ghost use Rattle.trips_answers.specs.Worked.{IsDone};
ghost use Rattle.trips_answers.specs.inside.Checked.{IsRunOfChecked};

use crate::forms::Settings;
use crate::gridded::run_image;
use base::Items;
use block_check::{CheckedImage, ImageRefusal};
use block_image::{ImageFault, decode};
use std::alloc::{AllocError, Global};
use target_asm::AsmFault;
use target_file::assemble_file;
use trips_isa::Image;
use trips_report::Said;
use trips_requests::Answer;
use trips_tools::refused;

// Runs the image where its blocks are good.
fn checked_answer(
    alloc: Global,
    image: Image,
    input: Items<u8>,
    settings: Settings,
) -> Result<Answer, AllocError>
    requires fits { FitsImage image }
    requires some { 0 < settings.most }
    ensures { IfOk result (λ answer.
        IsRunOfChecked image settings input answer.status answer.report.items) }
{
    match CheckedImage::make(alloc, image) {
        Ok(checked) => run_image(alloc, checked, input, settings),
        Err(ImageRefusal::Bad(number, fault)) => refused(alloc, Said::Check(number, fault)),
        Err(ImageRefusal::Memory) => Err(AllocError),
    }
}

/// What `run` answers for the bytes of an image's file and an input.
pub fn bytes_answer(
    alloc: Global,
    bytes: &[u8],
    input: Items<u8>,
    settings: Settings,
) -> Result<Answer, AllocError>
    requires { 0 < settings.most }
    ensures { IfOk result (λ answer. IsDone Run form.Image settings bytes.now input answer.status
        answer.report.items) }
{
    match decode(alloc, bytes) {
        Ok(image) => checked_answer(alloc, image, input, settings),
        Err(ImageFault::Memory) => Err(AllocError),
        Err(fault) => refused(alloc, Said::Image(fault)),
    }
}

/// What `run` answers for a target text and an input: its image runs.
pub fn target_answer(
    alloc: Global,
    text: &[u8],
    input: Items<u8>,
    settings: Settings,
) -> Result<Answer, AllocError>
    requires { 0 < settings.most }
    ensures { IfOk result (λ answer. IsDone Run form.Target settings text.now input answer.status
        answer.report.items) }
{
    match assemble_file(alloc, text) {
        Ok(image) => checked_answer(alloc, image, input, settings),
        Err(AsmFault::Memory) => Err(AllocError),
        Err(fault) => refused(alloc, Said::Asm(fault)),
    }
}
