//! A frame with its block, as far as it is in flight, runs or is sealed.
ghost use Rattle.std.specs.Prelude.{◌≡◌, ◌<◌, Some, None, MatchOption, length, slice_get};
ghost use Rattle.block_check.specs.inside.Images.{IsCheckedImage};
ghost use Rattle.frame_state.specs.inside.Held.{as_frame, running, sealed};
ghost use Rattle.frame_state.specs.inside.Phases.{HasBlock, IsIdle, IsOpen, frame_in, is_done};

use crate::body::Body;
use crate::phase::Phase;
use crate::states::Sealed;
use block_check::CheckedImage;
use trips_isa::Block;

/// The block of a number.
#[inline]
pub fn block_at(image: &CheckedImage, number: u32) -> &Block
    requires { number < length image.now.blocks }
    ensures value { slice_get image.now.blocks number ≡ Some result.now }
    ensures image { IsCheckedImage image.now }
{
    image.at(number).block()
}

/// A frame in flight: what it holds, and its block.
pub fn flying<'a>(phase: &'a Phase, image: &'a CheckedImage) -> Option<(&'a Body, &'a Block)>
    requires block { HasBlock image.now.blocks phase.now }
    ensures value { MatchOption result (frame_in image.now.blocks phase.now ≡ None)
        (λ p. frame_in image.now.blocks phase.now ≡ Some (as_frame (is_done phase.now) p.1.now p.0.now)) }
{
    match phase {
        Phase::Going(running) => {
            let held = running.held();
            Some((held, block_at(image, held.block())))
        }
        Phase::Done(sealed) => {
            let held = sealed.held();
            Some((held, block_at(image, held.block())))
        }
        Phase::Free(_) | Phase::Away => None,
    }
}

/// A frame that runs: what it holds, and its block.
pub fn running_in<'a>(phase: &'a Phase, image: &'a CheckedImage) -> Option<(&'a Body, &'a Block)>
    requires block { HasBlock image.now.blocks phase.now }
    ensures value { MatchOption result (IsIdle (frame_in image.now.blocks phase.now))
        (λ p. frame_in image.now.blocks phase.now ≡ Some (running p.1.now p.0.now)) }
{
    match phase {
        Phase::Going(running) => {
            let held = running.held();
            Some((held, block_at(image, held.block())))
        }
        Phase::Free(_) | Phase::Done(_) | Phase::Away => None,
    }
}

/// A sealed frame, and its block.
pub(crate) fn sealed_in<'a>(
    phase: &'a Phase,
    image: &'a CheckedImage,
) -> Option<(&'a Sealed, &'a Block)>
    requires block { HasBlock image.now.blocks phase.now }
    ensures value { MatchOption result (IsOpen (frame_in image.now.blocks phase.now))
        (λ p. frame_in image.now.blocks phase.now ≡ Some (sealed p.1.now p.0.now)) }
{
    match phase {
        Phase::Done(sealed) => Some((sealed, block_at(image, sealed.held().block()))),
        Phase::Free(_) | Phase::Going(_) | Phase::Away => None,
    }
}
