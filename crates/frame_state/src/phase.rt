//! One of the eight frames, whatever it is doing.
ghost use Rattle.std.specs.Prelude.{◌≡◌, ◌↔◌, ◌<◌, ◌+◌, IsTrue, List, Some, None, length, slice_get};
ghost use Rattle.trips_isa.specs.declared.block.Block.{Block};
ghost use Rattle.commit_flush_spec.specs.Older.{Older};
ghost use Rattle.commit_flush_spec.specs.Frames.{fresh};
ghost use Rattle.frame_state.specs.inside.Phases.{HasBlock, IsFree, Keeps, changed, frame_in, generation_of};
ghost use Rattle.frame_state.specs.inside.Phases.{number_of};
ghost use Rattle.frame_state.specs.inside.Changes.{sealed_if};

use crate::flights::block_at;
use crate::states::{Empty, Running, Sealed};
use block_check::CheckedImage;
use std::mem;

/// A frame that is empty, runs or is sealed. It is away only inside a call that hands it on.
pub enum Phase {
    Free(Empty),
    Going(Running),
    Done(Sealed),
    Away,
}

impl Drop for Phase {
    fn drop(self) {
        match self {
            Phase::Free(_empty) => {}
            Phase::Going(running) => {
                let _empty = running.flush();
            }
            Phase::Done(sealed) => {
                let _empty = sealed.flush();
            }
            Phase::Away => {}
        }
    }
}

impl Phase {
    // The frame without what it held.
    fn emptied(self) -> Phase
        ensures frame { (blocks : List Block) → frame_in blocks result ≡ None }
        ensures block { (blocks : List Block) → HasBlock blocks result }
        ensures keeps { Keeps self result }
    {
        match self {
            Phase::Free(empty) => Phase::Free(empty),
            Phase::Going(running) => Phase::Free(running.flush()),
            Phase::Done(sealed) => Phase::Free(sealed.flush()),
            Phase::Away => Phase::Away,
        }
    }

    // The frame filled with a block, where it is empty and not worn.
    fn filled(self, block: u32) -> Phase
        requires free { IsFree self }
        ensures frame { (blocks : List Block) (b : Block) → slice_get blocks block ≡ Some b
            → frame_in blocks result ≡ Some (fresh (number_of self) block b) }
        ensures block { (blocks : List Block) → block < length blocks → HasBlock blocks result }
        ensures number { number_of result ≡ number_of self }
        ensures generation { generation_of result ≡ generation_of self + 1 }
    {
        match self {
            Phase::Free(empty) => {
                if empty.generation() == u64::MAX {
                    Phase::Free(empty)
                } else {
                    Phase::Going(empty.fill(block))
                }
            }
            Phase::Going(running) => Phase::Going(running),
            Phase::Done(sealed) => Phase::Done(sealed),
            Phase::Away => Phase::Away,
        }
    }

    // The frame sealed, where it runs and has all its outputs.
    fn sealed(self, image: &CheckedImage) -> Phase
        requires block { HasBlock image.now.blocks self }
        ensures frame { (o : Older) → frame_in image.now.blocks result
            ≡ changed (sealed_if o) (frame_in image.now.blocks self) }
        ensures block { HasBlock image.now.blocks result }
        ensures keeps { Keeps self result }
    {
        match self {
            Phase::Going(running) => seal_running(running, image),
            Phase::Free(empty) => Phase::Free(empty),
            Phase::Done(sealed) => Phase::Done(sealed),
            Phase::Away => Phase::Away,
        }
    }

    /// Whether the frame is empty and may be filled.
    pub fn is_free(&self) -> bool
        ensures value { IsTrue result ↔ IsFree self.now }
    {
        match self {
            Phase::Free(empty) => empty.generation() != u64::MAX,
            Phase::Going(_) | Phase::Done(_) | Phase::Away => false,
        }
    }

    /// How often the frame was filled.
    pub fn generation(&self) -> u64
        ensures value { result ≡ generation_of self.now }
    {
        match self {
            Phase::Free(empty) => empty.generation(),
            Phase::Going(running) => running.held().generation(),
            Phase::Done(sealed) => sealed.held().generation(),
            Phase::Away => 0,
        }
    }
}

// The frame that runs sealed, where it has all its outputs.
#[tactic(auto, using(crate::proofs::PhaseFacts::sealing, crate::proofs::PhaseFacts::not_sealing))]
fn seal_running(running: Running, image: &CheckedImage) -> Phase
    requires block { running.block < length image.now.blocks }
    ensures frame { (o : Older) → frame_in image.now.blocks result
        ≡ changed (sealed_if o) (frame_in image.now.blocks (Phase.Going running)) }
    ensures block { HasBlock image.now.blocks result }
    ensures keeps { Keeps (Phase.Going running) result }
{
    let block = block_at(image, running.held().block());
    match running.seal(block) {
        Ok(sealed) => Phase::Done(sealed),
        Err(running) => Phase::Going(running),
    }
}

/// Empties this frame.
pub fn empty_in(phase: &mut Phase)
    ensures frame { (blocks : List Block) → frame_in blocks phase.new ≡ None }
    ensures block { (blocks : List Block) → HasBlock blocks phase.new }
    ensures keeps { Keeps phase.old phase.new }
{
    let old = mem::replace(phase, Phase::Away);
    *phase = old.emptied();
}

/// Fills this frame with a block.
pub fn fill_in(phase: &mut Phase, block: u32)
    requires free { IsFree phase.old }
    ensures frame { (blocks : List Block) (b : Block) → slice_get blocks block ≡ Some b
        → frame_in blocks phase.new ≡ Some (fresh (number_of phase.old) block b) }
    ensures block { (blocks : List Block) → block < length blocks → HasBlock blocks phase.new }
    ensures number { number_of phase.new ≡ number_of phase.old }
    ensures generation { generation_of phase.new ≡ generation_of phase.old + 1 }
{
    let old = mem::replace(phase, Phase::Away);
    *phase = old.filled(block);
}

/// Seals this frame, where it runs and has all its outputs.
pub fn seal_in(phase: &mut Phase, image: &CheckedImage)
    requires block { HasBlock image.now.blocks phase.old }
    ensures frame { (o : Older) → frame_in image.now.blocks phase.new
        ≡ changed (sealed_if o) (frame_in image.now.blocks phase.old) }
    ensures block { HasBlock image.now.blocks phase.new }
    ensures keeps { Keeps phase.old phase.new }
{
    let old = mem::replace(phase, Phase::Away);
    *phase = old.sealed(image);
}
