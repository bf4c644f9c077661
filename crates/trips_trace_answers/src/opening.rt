//! The image whose bytes a file has.

ghost use Rattle.std.specs.Prelude.{◌≡◌, All, ℕ, List, IfErr, IfOk};
ghost use Rattle.trips_isa.specs.Images.{FitsImage};
ghost use Rattle.block_image.specs.Spelling.{ImageBytes};
ghost use Rattle.block_check.specs.Faults.{IsGood};
ghost use Rattle.trips_trace_answers.specs.TraceAnswers.{HoldsImage};
ghost use Rattle.trips_trace_answers.specs.inside.Opening.{IsClosed};

use block_check::{CheckedImage, ImageRefusal};
use block_image::{ImageFault, decode};
use std::alloc::Global;
use trips_isa::Image;
use trips_report::Said;

/// Why there is no image to work with: the bytes are none of good blocks, or memory is refused.
#[derive(Debug, Drop)]
pub enum Closed {
    Refused(Said),
    Memory,
}

// The image, where its blocks are good.
fn checked(alloc: Global, image: Image) -> Result<CheckedImage, Closed>
    requires { FitsImage image }
    ensures same { IfOk result (λ checked. checked ≡ image) }
    ensures good { IfOk result (λ checked. All IsGood checked.blocks) }
    ensures err { IfErr result (λ why. (bytes : List ℕ) → ImageBytes image bytes → IsClosed bytes why) }
{
    match CheckedImage::make(alloc, image) {
        Ok(checked) => {
            let _blocks = checked.count();
            Ok(checked)
        }
        Err(ImageRefusal::Bad(number, fault)) => Err(Closed::Refused(Said::Check(number, fault))),
        Err(ImageRefusal::Memory) => Err(Closed::Memory),
    }
}

/// The image whose bytes these are and whose blocks are good, or why there is none.
pub fn opened(alloc: Global, bytes: &[u8]) -> Result<CheckedImage, Closed>
    ensures ok { IfOk result (HoldsImage bytes.now) }
    ensures err { IfErr result (IsClosed bytes.now) }
{
    match decode(alloc, bytes) {
        Ok(image) => checked(alloc, image),
        Err(ImageFault::Memory) => Err(Closed::Memory),
        Err(fault) => Err(Closed::Refused(Said::Image(fault))),
    }
}
