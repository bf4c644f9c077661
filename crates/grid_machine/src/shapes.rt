//! The shapes of the blocks of an image.
ghost use Rattle.std.specs.Prelude.{◌≡◌, ◌<◌, IfOk, Some, length, slice_get};
ghost use Rattle.grid_machine.specs.inside.Shaped.{AreShapes};

use base::Memory;
use block_check::CheckedImage;
use frame_state::Shape;
use std::alloc::{AllocError, Global};

/// The shape of each block of an image, by number.
#[derive(Drop)]
pub struct Shapes {
    pub(crate) shapes: Vec<Shape>,
}

// The shape of each block of an image.
fn all(alloc: Global, image: &CheckedImage) -> Result<Vec<Shape>, AllocError>
    ensures { IfOk result (λ s. AreShapes image.now.blocks s.items) }
{
    let count = image.count();
    let mut shapes = Vec::with_capacity(alloc, count as usize)?;
    for number in 0..count {
        let shape = Shape::make(image.at(number).block());
        shapes.push(shape)?;
    }
    Ok(shapes)
}

impl Shapes {
    /// The shapes of an image's blocks. Want of memory is the only error.
    pub fn make(alloc: Global, image: &CheckedImage) -> Result<Shapes, Memory>
        ensures { IfOk result (λ s. AreShapes image.now.blocks s.shapes.items) }
    {
        let shapes = all(alloc, image)?;
        Ok(Shapes { shapes })
    }

    /// The shape of a block.
    pub fn at(&self, block: u32) -> &Shape
        requires { block < length self.now.shapes.items }
        ensures { slice_get self.now.shapes.items block ≡ Some result.now }
    {
        &self.shapes[block as usize]
    }
}
