//! The event that begins a frame: Fetch.
ghost use Rattle.std.specs.Prelude.{◌≡◌};
ghost use Rattle.commit_flush_spec.specs.Causes as causes;
ghost use Rattle.commit_flush_spec.specs.Window as window;
ghost use Rattle.commit_flush_spec.specs.Window.{can, done};

use crate::bits::low_part;
use crate::window::Window;
use frame_state::{block_at, fill_in};

impl Window {
    // Fills the lowest empty frame with a block, as the youngest.
    pub(crate) fn fetch(&mut self, block: u32)
        requires done { can self.old.image.blocks self.old.budget (window.Fetch block) self.old.window
            ≡ causes.Done }
        ensures { self.new ≡ record self.old {
          window = done self.old.image.blocks (window.Fetch block) self.old.window;
        } }
    {
        match self.lowest_empty() {
            None => {}
            Some(frame) => {
                let age = self.in_flight();
                fill_in(&mut self.frames[frame as usize], block);
                let writes = block_at(&self.image, block).writes.as_slice();
                self.banks.declare(age, writes);
                self.order.push(frame);
                self.storing = low_part(self.storing, age);
                self.loading = low_part(self.loading, age);
            }
        }
    }
}
