//! The explanation of an image and of a target text.

ghost use Rattle.std.specs.Prelude.{◌≡◌, [], List, ℕ, IfOk};
ghost use Rattle.trips_isa.specs.Images.{FitsImage};
ghost use Rattle.block_image.specs.Spelling.{ImageBytes};
ghost use Rattle.target_file.specs.Files.{TargetFile};
ghost use Rattle.trips_explain_answers.specs.inside.Explained.{IsExplainedAs, IsJudged};
ghost use Rattle.trips_explain_answers.specs.declared.shape.Shape.TheVariants as shape;

use crate::file_telling::{asm_told, check_told, good_told, image_told};
use block_check::{CheckedImage, ImageRefusal};
use block_image::decode;
use std::alloc::{AllocError, Global};
use target_file::assemble_file;
use trips_isa::Image;
use trips_requests::{Answer, Status};

// What is told of an image by its blocks.
fn judged(alloc: Global, file: &str, image: Image) -> Result<Answer, AllocError>
    requires { FitsImage image }
    ensures { IfOk result (λ answer. IsJudged file.now image answer.status answer.report.items) }
{
    match CheckedImage::make(alloc, image) {
        Ok(checked) => Ok(Answer {
            status: Status::Ended,
            report: good_told(alloc, file, &checked)?,
        }),
        Err(ImageRefusal::Bad(number, fault)) => Ok(Answer {
            status: Status::Refused,
            report: check_told(alloc, file, number, fault)?,
        }),
        Err(ImageRefusal::Memory) => Err(AllocError),
    }
}

/// What the explanation of the bytes of an image is answered, under the name of its file: it takes no input.
pub fn image_explained(alloc: Global, file: &str, bytes: &[u8]) -> Result<Answer, AllocError>
    ensures { IfOk result (λ answer.
        IsExplainedAs shape.Image file.now bytes.now [] 0 answer.status answer.report.items) }
{
    match decode(alloc, bytes) {
        Ok(image) => judged(alloc, file, image),
        Err(fault) => Ok(Answer {
            status: Status::Refused,
            report: image_told(alloc, file, fault)?,
        }),
    }
}

/// What the explanation of a target text is answered, under the name of its file: it takes no input.
pub fn target_explained(alloc: Global, file: &str, text: &[u8]) -> Result<Answer, AllocError>
    ensures { IfOk result (λ answer.
        IsExplainedAs shape.Target file.now text.now [] 0 answer.status answer.report.items) }
{
    match assemble_file(alloc, text) {
        Ok(image) => judged(alloc, file, image),
        Err(fault) => Ok(Answer {
            status: Status::Refused,
            report: asm_told(alloc, file, fault)?,
        }),
    }
}
