//! The frames in flight, lent to those who move the window.
ghost use Rattle.std.specs.Prelude.{◌≡◌, MatchOption, None, Some, slice_get};
ghost use Rattle.frame_state.specs.inside.Held.{running};
ghost use Rattle.frame_state.specs.inside.Phases.{IsIdle};
ghost use Rattle.commit_flush.specs.Places.{numbers_of};
ghost use Rattle.commit_flush.specs.inside.Places.{frame_of};
ghost use Rattle.commit_flush.specs.inside.Lent.{IsLent};

use crate::window::Window;
use frame_state::{Body, flying, running_in};
use trips_isa::Block;

impl Window {
    /// The numbers of the frames in flight, the oldest first.
    pub fn numbers(&self) -> &[u8]
        ensures value { result.now ≡ numbers_of self.now.window.frames }
    {
        self.order.as_slice()
    }

    /// What the frame of a number holds, and its block, where the frame is in flight.
    pub fn flying(&self, frame: u8) -> Option<(&Body, &Block)>
        ensures value { MatchOption result (frame_of frame self.now.window.frames ≡ None)
            (λ p. IsLent p.0.now p.1.now (frame_of frame self.now.window.frames)) }
    {
        match self.phase(frame) {
            None => None,
            Some(phase) => flying(phase, self.image()),
        }
    }

    /// The same, where the frame runs.
    pub fn running(&self, frame: u8) -> Option<(&Body, &Block)>
        ensures value { MatchOption result (IsIdle (frame_of frame self.now.window.frames))
            (λ p. frame_of frame self.now.window.frames ≡ Some (running p.1.now p.0.now)) }
    {
        match self.phase(frame) {
            None => None,
            Some(phase) => running_in(phase, self.image()),
        }
    }

    /// What the frame of an age holds, the oldest having age 0, and its block.
    pub fn flying_at(&self, age: u8) -> Option<(&Body, &Block)>
        ensures value { MatchOption result (slice_get self.now.window.frames age ≡ None)
            (λ p. IsLent p.0.now p.1.now (slice_get self.now.window.frames age)) }
    {
        match self.phase_at(age) {
            None => None,
            Some(phase) => flying(phase, self.image()),
        }
    }
}
