//! Events that change one frame alone and are asked before they happen: Read and Seal.
ghost use Rattle.std.specs.Prelude.{◌≡◌};
ghost use Rattle.commit_flush_spec.specs.Causes as causes;
ghost use Rattle.commit_flush_spec.specs.Window as window;
ghost use Rattle.commit_flush_spec.specs.Window.{can, done};

use crate::window::Window;
use frame_state::{read_in, seal_in};

impl Window {
    // Answers a read of a frame.
    pub(crate) fn read(&mut self, frame: u8, read: u8)
        requires done { can self.old.image.blocks self.old.budget (window.Read frame read) self.old.window
            ≡ causes.Done }
        ensures { self.new ≡ record self.old {
          window = done self.old.image.blocks (window.Read frame read) self.old.window;
        } }
    {
        match self.word_of(frame, read) {
            None => {}
            Some(word) => {
                read_in(&mut self.frames[frame as usize], &self.image, read, word);
            }
        }
    }

    // Seals a frame.
    pub(crate) fn seal(&mut self, frame: u8)
        requires done { can self.old.image.blocks self.old.budget (window.Seal frame) self.old.window
            ≡ causes.Done }
        ensures { self.new ≡ record self.old {
          window = done self.old.image.blocks (window.Seal frame) self.old.window;
        } }
    {
        seal_in(&mut self.frames[frame as usize], &self.image);
    }
}
