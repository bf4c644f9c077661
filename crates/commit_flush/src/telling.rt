//! What is told of the frame of a number, and of the window as a whole.
ghost use Rattle.std.specs.Prelude.{◌≡◌};
ghost use Rattle.commit_flush_spec.specs.inside.Invariant.{AllGood};
ghost use Rattle.commit_flush_spec.specs.inside.Laws.{WindowOk};
ghost use Rattle.frame_state.specs.inside.Held.{exit_of};
ghost use Rattle.frame_state.specs.inside.Phases.{HasBlock, frame_in};
ghost use Rattle.frame_state.specs.inside.Told.{block_in, exit_come};
ghost use Rattle.commit_flush.specs.inside.Places.{frame_of};
ghost use Rattle.commit_flush.specs.inside.Telling.{number_of_exit, stored_in};

use crate::window::Window;
use block_check::CheckedImage;
use frame_state::{Departure, Phase, exit_come, flying};
use trips_isa::Stored;

// The number of an exit.
fn number_of_exit(exit: Option<Departure>) -> Option<u8>
    ensures { result ≡ number_of_exit (exit_of exit) }
{
    match exit {
        None => None,
        Some(exit) => Some(exit.exit),
    }
}

// The resolved store of a number.
fn stored_in(phase: &Phase, image: &CheckedImage, number: u8) -> Option<Stored>
    requires { HasBlock image.now.blocks phase.now }
    ensures { result ≡ stored_in number (frame_in image.now.blocks phase.now) }
{
    match flying(phase, image) {
        None => None,
        Some((held, _)) => held.stored(number),
    }
}

impl Window {
    /// The number of the block that a frame in flight holds.
    pub fn block_of(&self, frame: u8) -> Option<u32>
        ensures value { result ≡ block_in (frame_of frame self.now.window.frames) }
    {
        match self.phase(frame) {
            None => None,
            Some(phase) => frame_state::block_in(phase, self.image()),
        }
    }

    /// The number of the exit that has come of a frame in flight.
    pub fn exit_of(&self, frame: u8) -> Option<u8>
        ensures value { result ≡ number_of_exit (exit_come (frame_of frame self.now.window.frames)) }
    {
        match self.phase(frame) {
            None => None,
            Some(phase) => number_of_exit(exit_come(phase, self.image())),
        }
    }

    /// The store of a number of a frame in flight, where it is resolved.
    pub fn stored(&self, frame: u8, number: u8) -> Option<Stored>
        ensures value { result ≡ stored_in number (frame_of frame self.now.window.frames) }
    {
        match self.phase(frame) {
            None => None,
            Some(phase) => stored_in(phase, self.image(), number),
        }
    }

    /// What stands of every window: its blocks are good, and it has the invariant of the definitions.
    /// It does nothing.
    pub fn keeps_invariant(&self)
        ensures blocks { AllGood self.now.image.blocks }
        ensures window { WindowOk self.now.image.blocks self.now.budget self.now.window }
    {
        let _image = &self.image;
    }
}
