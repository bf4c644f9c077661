//! A law over the definitions alone; the function's clause is the law.
ghost use Rattle.std.specs.Prelude.{◌≡◌, ◌-◌, ◌^◌, ◌<◌, ◌==◌, false, List, None};
ghost use Rattle.trips_isa.specs.declared.block.Block.{Block};
ghost use Rattle.frame_state.specs.declared.phase.Phase.{Phase};
ghost use Rattle.frame_state.specs.inside.Phases.{HasBlock, IsFree, frame_in, generation_of, number_of};

/// One of the eight frames that is not in flight, and whose generation is not at its last value, may be filled.
pub fn empty_frames_may_be_filled()
    ensures { (blocks : List Block) (p : Phase) → HasBlock blocks p → frame_in blocks p ≡ None → number_of p < 8
        → (generation_of p == 2 ^ 64 - 1) ≡ false → IsFree p }
{}
