//! An image of three blocks, and predictors over it.

ghost use Rattle.std.specs.Prelude.{IfOk};
ghost use Rattle.trips_isa.specs.Images.{FitsImage};

use block_check::{CheckedImage, ImageRefusal};
use block_predict::Predictor;
use std::alloc::{AllocError, Global};
use std::test::Fail;
use target_asm::assemble;
use trips_isa::Image;

/// Block 0 calls block 2. Block 1 leaves by exit 3 to block 0 or by exit 1 to block 2. Block 2 returns.
const TEXT: &str = "trips 1
data 0
block 0 mask 00000000
N[0] callo 0 @2
block 1 mask 00000000
N[0] genu 1 N[1,0]
N[1] mov N[2,p] N[3,p]
N[2] bro_t 3 @0
N[3] bro_f 1 @2
block 2 mask 00000000
N[0] genu 0 N[1,0]
N[1] ret 0
";

fn image(alloc: Global) -> Result<Image, Fail>
    ensures { IfOk result FitsImage }
{
    match assemble(alloc, TEXT.as_bytes()) {
        Ok(image) => Ok(image),
        Err(fault) => Err(Fail::from(fault)),
    }
}

/// The image, checked.
pub fn three_blocks(alloc: Global) -> Result<CheckedImage, Fail> {
    let image = image(alloc)?;
    match CheckedImage::make(alloc, image) {
        Ok(checked) => Ok(checked),
        Err(ImageRefusal::Bad(_, fault)) => Err(Fail::from(fault)),
        Err(ImageRefusal::Memory) => Err(Fail::from(AllocError)),
    }
}

/// A predictor whose entries all name this exit.
pub fn all(alloc: Global, exit: u8) -> Result<Predictor, Fail> {
    let entries = vec![in alloc; exit; 1024]?;
    match Predictor::wrong(alloc, entries) {
        Ok(predictor) => Ok(predictor),
        Err(memory) => Err(Fail::from(memory)),
    }
}

/// What is asked of a predictor.
#[derive(Clone, Copy, Debug)]
pub enum Ask {
    /// The block after this one is predicted.
    Predict(u32),
    /// What would be predicted after this block.
    Peek(u32),
    /// This block was left by this exit, under the history 0.
    Learn(u32, u8),
    /// The history is put back.
    Repair(u16),
}

// What is predicted after a block of the image; none of one that is not there.
fn predict(predictor: &mut Predictor, image: &CheckedImage, number: u32) -> Option<u32> {
    if number < image.count() {
        predictor.predict(image, number)
    } else {
        None
    }
}

// What would be predicted.
fn peek(predictor: &Predictor, image: &CheckedImage, number: u32) -> Option<u32> {
    if number < image.count() {
        predictor.peek(image, number)
    } else {
        None
    }
}

/// What a predictor answers; none where it predicts nothing, where the block is not there, and where nothing is asked
/// for.
pub fn answer(predictor: &mut Predictor, image: &CheckedImage, ask: Ask) -> Option<u32> {
    match ask {
        Ask::Predict(number) => predict(predictor, image, number),
        Ask::Peek(number) => peek(predictor, image, number),
        Ask::Learn(number, exit) => {
            predictor.learn(number, 0, exit);
            None
        }
        Ask::Repair(history) => {
            predictor.repair(history % 1024);
            None
        }
    }
}
