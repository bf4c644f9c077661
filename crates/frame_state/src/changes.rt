//! What the events of one frame do to it.
ghost use Rattle.std.specs.Prelude.{◌≡◌, Some, true};
ghost use Rattle.commit_flush_spec.specs.Older.{Older};
ghost use Rattle.commit_flush_spec.specs.Dataflow.{read_answered, fire, deliver};
ghost use Rattle.commit_flush_spec.specs.Memory.{load};
ghost use Rattle.commit_flush_spec.specs.inside.Dropping.{stored_alone, exited_alone};
ghost use Rattle.frame_state.specs.inside.Phases.{HasBlock, Keeps, frame_in, changed};
ghost use Rattle.frame_state.specs.inside.Changes.{Declares, IsWord};
ghost use Rattle.frame_state.specs.inside.Told.{finds_room};

use crate::exits::departure;
use crate::flights::block_at;
use crate::phase::Phase;
use block_check::CheckedImage;

/// Puts the word of a declared read of this frame on its way.
#[tactic(auto, using(crate::proofs::PhaseFacts::going))]
pub fn read_in(phase: &mut Phase, image: &CheckedImage, read: u8, word: u64)
    requires block { HasBlock image.now.blocks phase.old }
    requires declared { Declares read (frame_in image.now.blocks phase.old) }
    ensures frame { frame_in image.now.blocks phase.new
        ≡ changed (read_answered read (Some word)) (frame_in image.now.blocks phase.old) }
    ensures block { HasBlock image.now.blocks phase.new }
    ensures keeps { Keeps phase.old phase.new }
{
    match phase {
        Phase::Going(running) => {
            let block = block_at(image, running.held().block());
            running.read(block, read, word);
        }
        Phase::Free(_) | Phase::Done(_) | Phase::Away => {}
    }
}

/// Fires a slot of this frame.
#[tactic(auto, using(crate::proofs::PhaseFacts::going))]
pub fn fire_in(phase: &mut Phase, image: &CheckedImage, slot: u8)
    requires block { HasBlock image.now.blocks phase.old }
    ensures frame { (o : Older) → frame_in image.now.blocks phase.new
        ≡ changed (fire slot o) (frame_in image.now.blocks phase.old) }
    ensures block { HasBlock image.now.blocks phase.new }
    ensures keeps { Keeps phase.old phase.new }
{
    match phase {
        Phase::Going(running) => {
            let block = block_at(image, running.held().block());
            running.fire(block, slot);
        }
        Phase::Free(_) | Phase::Done(_) | Phase::Away => {}
    }
}

/// Moves the token in a place of this frame to the place of the block that it goes to, which is empty (`finds_room`).
#[tactic(auto, using(crate::proofs::PhaseFacts::going))]
pub fn deliver_in(phase: &mut Phase, image: &CheckedImage, place: u16)
    requires block { HasBlock image.now.blocks phase.old }
    requires free { finds_room place (frame_in image.now.blocks phase.old) ≡ true }
    ensures frame { (o : Older) → frame_in image.now.blocks phase.new
        ≡ changed (deliver place o) (frame_in image.now.blocks phase.old) }
    ensures block { HasBlock image.now.blocks phase.new }
    ensures keeps { Keeps phase.old phase.new }
{
    match phase {
        Phase::Going(running) => {
            let block = block_at(image, running.held().block());
            running.deliver(block, place);
        }
        Phase::Free(_) | Phase::Done(_) | Phase::Away => {}
    }
}

/// Answers the load of this frame that waits with a number; `bytes` is the number that its bytes make.
#[tactic(auto, using(crate::proofs::PhaseFacts::going))]
pub fn load_in(phase: &mut Phase, image: &CheckedImage, number: u8, bytes: u64)
    requires block { HasBlock image.now.blocks phase.old }
    ensures frame { (o : Older) → IsWord o number bytes (frame_in image.now.blocks phase.old)
        → frame_in image.now.blocks phase.new ≡ changed (load number o) (frame_in image.now.blocks phase.old) }
    ensures block { HasBlock image.now.blocks phase.new }
    ensures keeps { Keeps phase.old phase.new }
{
    match phase {
        Phase::Going(running) => {
            let block = block_at(image, running.held().block());
            if let Some((slot, inst)) = running.held().request(block, number) {
                running.answer(block, number, slot, inst, bytes);
            }
        }
        Phase::Free(_) | Phase::Done(_) | Phase::Away => {}
    }
}

/// Resolves the store of this frame that waits with a number.
#[tactic(auto, using(crate::proofs::PhaseFacts::going))]
pub fn store_in(phase: &mut Phase, image: &CheckedImage, number: u8)
    requires block { HasBlock image.now.blocks phase.old }
    ensures frame { (o : Older) → frame_in image.now.blocks phase.new
        ≡ changed (stored_alone number o) (frame_in image.now.blocks phase.old) }
    ensures block { HasBlock image.now.blocks phase.new }
    ensures keeps { Keeps phase.old phase.new }
{
    match phase {
        Phase::Going(running) => {
            let block = block_at(image, running.held().block());
            if let Some((slot, inst)) = running.held().request(block, number) {
                running.resolve(block, number, slot, inst);
            }
        }
        Phase::Free(_) | Phase::Done(_) | Phase::Away => {}
    }
}

/// Makes the exit of this frame's waiting branch known.
#[tactic(auto, using(crate::proofs::PhaseFacts::going))]
pub fn exit_in(phase: &mut Phase, image: &CheckedImage)
    requires block { HasBlock image.now.blocks phase.old }
    ensures frame { (o : Older) → frame_in image.now.blocks phase.new
        ≡ changed (exited_alone image.now.blocks o) (frame_in image.now.blocks phase.old) }
    ensures block { HasBlock image.now.blocks phase.new }
    ensures keeps { Keeps phase.old phase.new }
{
    match phase {
        Phase::Going(running) => {
            let number = running.held().block();
            let block = block_at(image, number);
            let exit = departure(image, number, running.held().branch(block));
            running.leave(block, exit);
        }
        Phase::Free(_) | Phase::Done(_) | Phase::Away => {}
    }
}
