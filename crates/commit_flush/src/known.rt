//! What driving remembers of the block that it works on.
ghost use Rattle.std.specs.Prelude.{◌≡◌, ◌<◌, IfSome, List, Some, length, slice_get};
ghost use Rattle.trips_isa.specs.declared.block.Block.{Block};
ghost use Rattle.frame_state.specs.inside.Shapes.{IsShape};
ghost use Rattle.commit_flush.specs.inside.Known.{IsKnown};

use crate::window::Window;
use block_check::CheckedImage;
use frame_state::{Event, Shape, block_at};

/// The number of a block of the image, and its shape.
#[derive(Drop)]
pub struct Known {
    pub block: u32,
    pub shape: Shape,
}

/// The shape of the block of a number, where it is known.
pub fn shape_of(known: &Option<Known>, number: u32) -> Option<&Shape>
    ensures { (blocks : List Block) (b : Block) → IsKnown blocks known.now → slice_get blocks number ≡ Some b
        → IfSome result (λ x. IsShape b x.now) }
{
    match known {
        None => None,
        Some(known) => {
            if known.block == number {
                Some(&known.shape)
            } else {
                None
            }
        }
    }
}

// What is known of a block of the image.
fn learnt(image: &CheckedImage, number: u32) -> Known
    requires { number < length image.now.blocks }
    ensures { IsKnown image.now.blocks (Some result) }
{
    Known {
        block: number,
        shape: Shape::make(block_at(image, number)),
    }
}

// Remembers a block of the image, where it is another than before.
fn remember_block(known: &mut Option<Known>, image: &CheckedImage, number: u32)
    requires { IsKnown image.now.blocks known.old }
    ensures { IsKnown image.now.blocks known.new }
{
    if shape_of(known, number).is_none() && number < image.count() {
        *known = Some(learnt(image, number));
    }
}

/// Remembers the block that an event fetches.
pub fn remember(known: &mut Option<Known>, window: &Window, e: Event)
    requires { IsKnown window.now.image.blocks known.old }
    ensures { IsKnown window.now.image.blocks known.new }
{
    match e {
        Event::Fetch { block } => remember_block(known, window.image(), block),
        _ => {}
    }
}
