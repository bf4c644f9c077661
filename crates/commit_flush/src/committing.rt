//! The event that changes the committed state: Commit.
ghost use Rattle.std.specs.Prelude.{◌≡◌, ◌<◌, Some, slice_get};
ghost use Rattle.trips_isa.specs.TrapCauses.{no_mark};
ghost use Rattle.commit_flush_spec.specs.Causes as causes;
ghost use Rattle.commit_flush_spec.specs.Window as window;
ghost use Rattle.commit_flush_spec.specs.Window.{can, done};
ghost use Rattle.frame_state.specs.inside.Told.{cause_in};
ghost use Rattle.commit_flush.specs.Places.{numbers_of};
ghost use Rattle.commit_flush.specs.inside.Places.{frame_of};

use crate::bits::led_down;
use crate::parts::flush_from;
use crate::window::Window;
use frame_state::{empty_in, outputs_in};
use trips_isa::{NO_MARK, Stepped, cause_of};

impl Window {
    // The least mark of what a sealed frame hands to its commit, or none.
    fn cause(&self, frame: u8) -> u8
        ensures { result ≡ cause_in (frame_of frame self.now.window.frames) }
    {
        match self.phase(frame) {
            None => NO_MARK,
            Some(phase) => frame_state::cause_in(phase, self.image()),
        }
    }

    // Ends the run at the oldest frame, which has a marked output, and empties all.
    fn trap(&mut self, frame: u8, mark: u8)
        requires done { can self.old.image.blocks self.old.budget window.Commit self.old.window ≡ causes.Done }
        requires oldest { slice_get (numbers_of self.old.window.frames) 0 ≡ Some frame }
        requires cause { mark ≡ cause_in (frame_of frame self.old.window.frames) }
        requires marked { no_mark < mark }
        ensures { self.new ≡ record self.old {
          window = done self.old.image.blocks window.Commit self.old.window;
        } }
    {
        self.over = Stepped::Trap(cause_of(mark));
        flush_from(&mut self.frames, &mut self.order, &mut self.banks, 0);
    }

    // Applies the effects of the oldest frame, which has no marked output, and empties it.
    fn apply(&mut self, frame: u8)
        requires done { can self.old.image.blocks self.old.budget window.Commit self.old.window ≡ causes.Done }
        requires oldest { slice_get (numbers_of self.old.window.frames) 0 ≡ Some frame }
        requires unmarked { cause_in (frame_of frame self.old.window.frames) ≡ no_mark }
        ensures { self.new ≡ record self.old {
          window = done self.old.image.blocks window.Commit self.old.window;
        } }
    {
        match outputs_in(&self.frames[frame as usize], &self.image) {
            None => {}
            Some(outputs) => {
                self.over = self.arch.apply(
                    &self.image,
                    outputs.writes(),
                    outputs.stores(),
                    outputs.exit(),
                    outputs.system(),
                    outputs.successor(),
                );
                let _ = self.order.remove(0);
                empty_in(&mut self.frames[frame as usize]);
                self.banks.retire();
                self.storing = led_down(self.storing);
                self.loading = led_down(self.loading);
            }
        }
    }

    // Commits this frame, which is the oldest.
    fn commit_frame(&mut self, frame: u8)
        requires done { can self.old.image.blocks self.old.budget window.Commit self.old.window ≡ causes.Done }
        requires oldest { slice_get (numbers_of self.old.window.frames) 0 ≡ Some frame }
        ensures { self.new ≡ record self.old {
          window = done self.old.image.blocks window.Commit self.old.window;
        } }
    {
        let cause = self.cause(frame);
        if cause > 0 {
            self.trap(frame, cause);
        } else {
            self.apply(frame);
        }
    }

    // Commits the oldest frame.
    pub(crate) fn commit(&mut self)
        requires done { can self.old.image.blocks self.old.budget window.Commit self.old.window ≡ causes.Done }
        ensures { self.new ≡ record self.old {
          window = done self.old.image.blocks window.Commit self.old.window;
        } }
    {
        match self.frame_at(0) {
            None => {}
            Some(frame) => self.commit_frame(frame),
        }
    }
}
