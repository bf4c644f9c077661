//! An image is made of each of four files, or they are refused by the lowest of which none is made; the images run on
//! one grid.

ghost use Rattle.std.specs.Prelude.{◌≡◌, ◌<◌, ◌≤◌, ◌++◌, ◌∷◌, [], IfOk, length};
ghost use Rattle.trips_isa.specs.Images.{FitsImage};
ghost use Rattle.trips_requests.specs.Texts.{IsFixed};
ghost use Rattle.trips_four_answers.specs.Report.{program_line};
ghost use Rattle.trips_answers.specs.declared.forms.FileForm.TheVariants as form;
ghost use Rattle.trips_answers.specs.Asks.{limit_of};
ghost use Rattle.trips_answers.specs.Fours.{IsFilesDone};
ghost use Rattle.trips_answers.specs.inside.Made.{IsChecked, IsMade, IsRefusedSo, IsRestDone, IsToldAt, seen_as};

use crate::forms::{FileForm, Settings};
use base::Items;
use block_check::{CheckedImage, ImageRefusal};
use block_image::{ImageFault, decode};
use c_compile::compile_unrolled;
use std::alloc::{AllocError, Global};
use target_asm::AsmFault;
use target_file::assemble_file;
use trips_eval_answers::stage_refused;
use trips_four_answers::{four_answer, program_line};
use trips_isa::Image;
use trips_report::Said;
use trips_requests::{Answer, Status};
use trips_tools::refused;

/// A file: what it is read as, and its bytes.
#[derive(Drop)]
pub struct Program {
    pub form: FileForm,
    pub bytes: Items<u8>,
}

/// Why no image is made of a file: the report of `run`, or want of memory.
#[derive(Drop)]
pub enum NoImage {
    Refused(Vec<u8>),
    Memory,
}

// The refusal that an answer tells.
fn refusal_of(answer: Result<Answer, AllocError>) -> NoImage
    ensures { IsRefusedSo answer result }
{
    match answer {
        Ok(answer) => NoImage::Refused(answer.report),
        Err(_) => NoImage::Memory,
    }
}

// The image that is compiled from a text.
fn text_image(alloc: Global, text: &[u8], settings: Settings) -> Result<CheckedImage, NoImage>
    requires few { length text.now < 4_294_967_295 }
    requires turns { 0 < settings.unroll }
    ensures { IsMade form.Source settings text.now result }
{
    match compile_unrolled(alloc, text, settings.placing, settings.unroll) {
        Ok(image) => Ok(image),
        Err(refusal) => Err(refusal_of(stage_refused(alloc, text, refusal))),
    }
}

// An image whose blocks are good.
fn checked_image(alloc: Global, image: Image) -> Result<CheckedImage, NoImage>
    requires fits { FitsImage image }
    ensures { IsChecked image result }
{
    match CheckedImage::make(alloc, image) {
        Ok(checked) => Ok(checked),
        Err(ImageRefusal::Bad(number, fault)) => {
            Err(refusal_of(refused(alloc, Said::Check(number, fault))))
        }
        Err(ImageRefusal::Memory) => Err(NoImage::Memory),
    }
}

// That of the bytes of an image's file.
fn bytes_image(alloc: Global, bytes: &[u8], settings: Settings) -> Result<CheckedImage, NoImage>
    ensures { IsMade form.Image settings bytes.now result }
{
    match decode(alloc, bytes) {
        Ok(image) => checked_image(alloc, image),
        Err(ImageFault::Memory) => Err(NoImage::Memory),
        Err(fault) => Err(refusal_of(refused(alloc, Said::Image(fault)))),
    }
}

// That of a target text.
fn target_image(alloc: Global, text: &[u8], settings: Settings) -> Result<CheckedImage, NoImage>
    ensures { IsMade form.Target settings text.now result }
{
    match assemble_file(alloc, text) {
        Ok(image) => checked_image(alloc, image),
        Err(AsmFault::Memory) => Err(NoImage::Memory),
        Err(fault) => Err(refusal_of(refused(alloc, Said::Asm(fault)))),
    }
}

/// The image that is made of the bytes of a file.
pub fn made_of(
    alloc: Global,
    form: FileForm,
    bytes: &[u8],
    settings: Settings,
) -> Result<CheckedImage, NoImage>
    requires few { length bytes.now ≤ limit_of form }
    requires turns { 0 < settings.unroll }
    ensures { IsMade form settings bytes.now result }
{
    match form {
        FileForm::Source => text_image(alloc, bytes, settings),
        FileForm::Target => target_image(alloc, bytes, settings),
        FileForm::Image => bytes_image(alloc, bytes, settings),
        // no file of `four` and `draw` is read so
        FileForm::Saved => Err(NoImage::Memory),
    }
}

// That of a file.
fn image_of(alloc: Global, program: &Program, settings: Settings) -> Result<CheckedImage, NoImage>
    requires few { length program.now.bytes ≤ limit_of program.now.form }
    requires turns { 0 < settings.unroll }
    ensures { IsMade program.now.form settings program.now.bytes result }
{
    let bytes = program.bytes.as_slice();
    made_of(alloc, program.form, bytes, settings)
}

// The answer that refuses the program of a number.
fn refused_at(alloc: Global, number: u8, refusal: &[u8]) -> Result<Answer, AllocError>
    ensures { IfOk result (λ answer. IsFixed Status.Refused (program_line number ++ refusal.now)
        answer.status answer.report.items) }
{
    let mut report = program_line(alloc, number)?;
    report.extend_from_slice(refusal)?;
    Ok(Answer {
        status: Status::Refused,
        report,
    })
}

// The answer where no image is made of the program of a number; want of memory stays an error.
fn no_image(alloc: Global, number: u8, why: NoImage) -> Result<Answer, AllocError>
    ensures { IfOk result (λ answer. IsToldAt number why answer.status answer.report.items) }
{
    match why {
        NoImage::Refused(refusal) => refused_at(alloc, number, &refusal),
        NoImage::Memory => Err(AllocError),
    }
}

// What is answered to the fourth file, behind three images.
fn behind_three(
    alloc: Global,
    first: CheckedImage,
    second: CheckedImage,
    third: CheckedImage,
    fourth: &Program,
    input: &[u8],
    settings: Settings,
) -> Result<Answer, AllocError>
    requires few { length fourth.now.bytes ≤ limit_of fourth.now.form }
    requires some { 0 < settings.most }
    requires turns { 0 < settings.unroll }
    ensures { IfOk result (λ answer. IsRestDone settings 3 (first ∷ second ∷ third ∷ [])
        (seen_as fourth.now ∷ []) input.now answer.status answer.report.items) }
{
    match image_of(alloc, fourth, settings) {
        Ok(image) => four_answer(
            alloc,
            first,
            second,
            third,
            image,
            input,
            settings.seed,
            settings.most,
            settings.show.cycles,
        ),
        Err(why) => no_image(alloc, 3, why),
    }
}

// To the third and the fourth, behind two.
fn behind_two(
    alloc: Global,
    first: CheckedImage,
    second: CheckedImage,
    third: &Program,
    fourth: &Program,
    input: &[u8],
    settings: Settings,
) -> Result<Answer, AllocError>
    requires third { length third.now.bytes ≤ limit_of third.now.form }
    requires fourth { length fourth.now.bytes ≤ limit_of fourth.now.form }
    requires some { 0 < settings.most }
    requires turns { 0 < settings.unroll }
    ensures { IfOk result (λ answer. IsRestDone settings 2 (first ∷ second ∷ [])
        (seen_as third.now ∷ seen_as fourth.now ∷ []) input.now answer.status answer.report.items) }
{
    match image_of(alloc, third, settings) {
        Ok(image) => behind_three(alloc, first, second, image, fourth, input, settings),
        Err(why) => no_image(alloc, 2, why),
    }
}

// To all but the first, behind that one's image.
fn behind_one(
    alloc: Global,
    first: CheckedImage,
    second: &Program,
    third: &Program,
    fourth: &Program,
    input: &[u8],
    settings: Settings,
) -> Result<Answer, AllocError>
    requires second { length second.now.bytes ≤ limit_of second.now.form }
    requires third { length third.now.bytes ≤ limit_of third.now.form }
    requires fourth { length fourth.now.bytes ≤ limit_of fourth.now.form }
    requires some { 0 < settings.most }
    requires turns { 0 < settings.unroll }
    ensures { IfOk result (λ answer. IsRestDone settings 1 (first ∷ [])
        (seen_as second.now ∷ seen_as third.now ∷ seen_as fourth.now ∷ []) input.now
        answer.status answer.report.items) }
{
    match image_of(alloc, second, settings) {
        Ok(image) => behind_two(alloc, first, image, third, fourth, input, settings),
        Err(why) => no_image(alloc, 1, why),
    }
}

/// What is answered to four files that were read.
pub fn files_answer(
    alloc: Global,
    first: &Program,
    second: &Program,
    third: &Program,
    fourth: &Program,
    input: &[u8],
    settings: Settings,
) -> Result<Answer, AllocError>
    requires first { length first.now.bytes ≤ limit_of first.now.form }
    requires second { length second.now.bytes ≤ limit_of second.now.form }
    requires third { length third.now.bytes ≤ limit_of third.now.form }
    requires fourth { length fourth.now.bytes ≤ limit_of fourth.now.form }
    requires some { 0 < settings.most }
    requires turns { 0 < settings.unroll }
    ensures { IfOk result (λ answer. IsFilesDone settings (seen_as first.now ∷ seen_as second.now
        ∷ seen_as third.now ∷ seen_as fourth.now ∷ []) input.now answer.status answer.report.items) }
{
    match image_of(alloc, first, settings) {
        Ok(image) => behind_one(alloc, image, second, third, fourth, input, settings),
        Err(why) => no_image(alloc, 0, why),
    }
}
