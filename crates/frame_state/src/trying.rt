//! Events of one frame that are tried: each looks once for its cause, and happens where it finds none.
ghost use Rattle.std.specs.Prelude.{◌≡◌, IfSome, Some, Option, slice_get};
ghost use Rattle.commit_flush_spec.specs.Causes as causes;
ghost use Rattle.commit_flush_spec.specs.Older.{Older};
ghost use Rattle.commit_flush_spec.specs.Frames.{at, target};
ghost use Rattle.commit_flush_spec.specs.Dataflow.{can_fire, can_deliver, fire, deliver};
ghost use Rattle.commit_flush_spec.specs.inside.Laws.{IsFree};
ghost use Rattle.frame_state.specs.inside.Held.{Stays, running};
ghost use Rattle.frame_state.specs.Events.{as_happened};
ghost use Rattle.frame_state.specs.inside.Phases.{HasBlock, Keeps, answered, changed, frame_in};
ghost use Rattle.frame_state.specs.inside.Told.{register_to, token_in, write_at};
ghost use Rattle.frame_state.specs.inside.Tried.{IsFreeIn, Leaves, arrived, tried};

use crate::answers::is_target;
use crate::event::{Cause, Happened};
use crate::flights::block_at;
use crate::observers::write_at;
use crate::phase::Phase;
use crate::states::Running;
use block_check::CheckedImage;
use trips_isa::{Block, Token};

/// A token that has come to its place of the block, and the register of the write there, if it is one.
#[derive(Clone, Copy, Debug, PartialEq, Eq)]
pub struct Arrival {
    pub register: Option<u8>,
    pub token: Token,
}

// Fires a slot of a frame that runs, or tells why it does not fire.
fn fire_running(frame: &mut Running, block: &Block, slot: u8) -> Happened
    ensures answer { (o : Older) → as_happened result ≡ can_fire slot o (running block.now frame.old) }
    ensures frame { (o : Older) → running block.now frame.new
        ≡ tried (as_happened result) (fire slot o) (running block.now frame.old) }
    ensures same { Leaves (as_happened result) frame.old frame.new }
    ensures stays { Stays frame.old frame.new }
{
    match frame.held().waiting_at(block, slot) {
        None => Happened::NotNow(Cause::NoInst),
        Some(inst) => {
            if frame.fire_if(block, inst, slot) {
                Happened::Done
            } else {
                Happened::NotNow(Cause::NotReady)
            }
        }
    }
}

/// Fires a slot of this frame, or tells why it does not fire.
#[tactic(auto, using(crate::proofs::PhaseFacts::going))]
pub fn try_fire(phase: &mut Phase, image: &CheckedImage, slot: u8) -> Happened
    requires block { HasBlock image.now.blocks phase.old }
    ensures answer { (o : Older) → as_happened result
        ≡ answered (causes.NotNow causes.NoFrame) (can_fire slot) o (frame_in image.now.blocks phase.old) }
    ensures frame { (o : Older) → frame_in image.now.blocks phase.new
        ≡ changed (tried (as_happened result) (fire slot o)) (frame_in image.now.blocks phase.old) }
    ensures same { Leaves (as_happened result) phase.old phase.new }
    ensures block { HasBlock image.now.blocks phase.new }
    ensures keeps { Keeps phase.old phase.new }
{
    match phase {
        Phase::Going(frame) => {
            let block = block_at(image, frame.held().block());
            fire_running(frame, block, slot)
        }
        Phase::Free(_) | Phase::Done(_) | Phase::Away => Happened::NotNow(Cause::NoFrame),
    }
}

// Moves the token in a place of a frame that runs to its place of the block, if there is one that may be.
fn deliver_running(frame: &mut Running, block: &Block, place: u16) -> Option<Arrival>
    requires free { IsFree (running block.now frame.old) }
    ensures answer { (o : Older) → arrived result ≡ can_deliver place o (running block.now frame.old) }
    ensures frame { (o : Older) → running block.now frame.new
        ≡ tried (arrived result) (deliver place o) (running block.now frame.old) }
    ensures same { Leaves (arrived result) frame.old frame.new }
    ensures register { IfSome result (λ a. a.register
        ≡ write_at block.now.writes.items (target block.now place)) }
    ensures token { IfSome result (λ a. Some a.token ≡ at frame.old.places place) }
    ensures stays { Stays frame.old frame.new }
{
    match frame.held().place(place as usize) {
        None => None,
        Some(token) => {
            let to = frame.held().target_of(block, place);
            if is_target(to) {
                frame.deliver_to(block, place, to, token);
                let register = write_at(block, to);
                Some(Arrival { register, token })
            } else {
                None
            }
        }
    }
}

/// Moves the token in a place of this frame to its place of the block, if there is one that may be. It overwrites
/// none: each token that is on its way there finds its place empty.
#[tactic(auto, using(crate::proofs::PhaseFacts::going))]
pub fn try_deliver(phase: &mut Phase, image: &CheckedImage, place: u16) -> Option<Arrival>
    requires block { HasBlock image.now.blocks phase.old }
    requires free { IsFreeIn image.now.blocks phase.old }
    ensures answer { (o : Older) → arrived result
        ≡ answered (causes.NotNow causes.NoToken) (can_deliver place) o (frame_in image.now.blocks phase.old) }
    ensures frame { (o : Older) → frame_in image.now.blocks phase.new
        ≡ changed (tried (arrived result) (deliver place o)) (frame_in image.now.blocks phase.old) }
    ensures same { Leaves (arrived result) phase.old phase.new }
    ensures register { IfSome result (λ a. a.register ≡ register_to place (frame_in image.now.blocks phase.old)) }
    ensures token { IfSome result (λ a. Some a.token ≡ token_in place (frame_in image.now.blocks phase.old)) }
    ensures block { HasBlock image.now.blocks phase.new }
    ensures keeps { Keeps phase.old phase.new }
{
    match phase {
        Phase::Going(frame) => {
            let block = block_at(image, frame.held().block());
            deliver_running(frame, block, place)
        }
        Phase::Free(_) | Phase::Done(_) | Phase::Away => None,
    }
}
