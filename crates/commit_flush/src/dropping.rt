//! Events that flush younger frames: Flush and Exit.
ghost use Rattle.std.specs.Prelude.{◌≡◌, ◌<◌, suc, [], length, slice_get};
ghost use Rattle.commit_flush_spec.specs.Causes as causes;
ghost use Rattle.commit_flush_spec.specs.Window as window;
ghost use Rattle.commit_flush_spec.specs.Window.{can, done};
ghost use Rattle.frame_state.specs.inside.Told.{block_in, leads_to};
ghost use Rattle.commit_flush.specs.inside.Places.{frame_of};
ghost use Rattle.commit_flush.specs.inside.Left.{left_behind};

use crate::ages::follows;
use crate::parts::flush_from;
use crate::window::Window;
use frame_state::exit_in;

impl Window {
    // Empties a frame and all younger.
    pub(crate) fn flush(&mut self, frame: u8)
        requires done { can self.old.image.blocks self.old.budget (window.Flush frame) self.old.window
            ≡ causes.Done }
        ensures { self.new ≡ record self.old {
          window = done self.old.image.blocks (window.Flush frame) self.old.window;
        } }
    {
        match self.age_of(frame) {
            None => {}
            Some(age) => {
                flush_from(&mut self.frames, &mut self.order, &mut self.banks, age);
            }
        }
    }

    /// Flushes all frames, also once the run has ended.
    pub fn empty(&mut self)
        ensures window { self.new ≡ record self.old {
          window = record self.old.window { frames = [] };
        } }
    {
        flush_from(&mut self.frames, &mut self.order, &mut self.banks, 0);
    }

    // The block that the frame of an age holds.
    fn block_at(&self, age: u8) -> Option<u32>
        ensures { result ≡ block_in (slice_get self.now.window.frames age) }
    {
        let phase = self.phase_at(age)?;
        frame_state::block_in(phase, self.image())
    }

    // Where the branch of a frame that waits would lead.
    fn leads_to(&self, frame: u8) -> Option<u32>
        ensures { result ≡ leads_to self.now.image.blocks (frame_of frame self.now.window.frames) }
    {
        let phase = self.phase(frame)?;
        frame_state::leads_to(phase, self.image())
    }

    // How many frames the exit of the frame of an age leaves. It is found before the exit is made known.
    fn left_by_exit(&self, frame: u8, age: u8) -> u8
        requires { age < 8 }
        ensures { result ≡ left_behind age (leads_to self.now.image.blocks (frame_of frame self.now.window.frames))
            (block_in (slice_get self.now.window.frames (suc age))) (length self.now.window.frames) }
    {
        match self.block_at(age + 1) {
            None => self.in_flight(),
            Some(block) => {
                if follows(self.leads_to(frame), block) {
                    self.in_flight()
                } else {
                    age + 1
                }
            }
        }
    }

    // Makes the exit of a frame known, and empties the younger where the next holds another block.
    pub(crate) fn exit(&mut self, frame: u8)
        requires done { can self.old.image.blocks self.old.budget (window.Exit frame) self.old.window
            ≡ causes.Done }
        ensures { self.new ≡ record self.old {
          window = done self.old.image.blocks (window.Exit frame) self.old.window;
        } }
    {
        match self.age_of(frame) {
            None => {}
            Some(age) => {
                let left = self.left_by_exit(frame, age);
                exit_in(&mut self.frames[frame as usize], &self.image);
                flush_from(&mut self.frames, &mut self.order, &mut self.banks, left);
            }
        }
    }
}
