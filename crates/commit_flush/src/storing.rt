//! The event that resolves a store, and flushes the loads that it makes wrong: Store.
ghost use Rattle.std.specs.Prelude.{◌≡◌, ◌<◌, ◌≤◌, ◌+◌, ℕ, None, Some, drop, length, slice_get};
ghost use Rattle.commit_flush_spec.specs.Causes as causes;
ghost use Rattle.commit_flush_spec.specs.Frames.{Frame, at, numbers};
ghost use Rattle.commit_flush_spec.specs.Older.{committed, covers};
ghost use Rattle.commit_flush_spec.specs.Dropping.{left_by, store_left, untouched};
ghost use Rattle.commit_flush_spec.specs.Window as window;
ghost use Rattle.commit_flush_spec.specs.Window.{can, done};
ghost use Rattle.lsq_order.specs.inside.Reached.{narrowed, reached};
ghost use Rattle.lsq_order.specs.inside.Wrong.{Finds};
ghost use Rattle.frame_state.specs.inside.Phases.{HasBlock, frame_in};
ghost use Rattle.frame_state.specs.inside.Told.{waiting_store};
ghost use Rattle.commit_flush.specs.inside.Places.{age_of, frame_of};

use crate::bits::with_bit;
use crate::parts::flush_from;
use crate::window::Window;
use block_check::CheckedImage;
use frame_state::{Phase, flying, store_in, waiting_store};
use lsq_order::Reach;
use trips_isa::Stored;

// The lowest load of a frame, with a number from this one on, that took a byte which is reached.
fn wrong_in(phase: &Phase, image: &CheckedImage, reach: &mut Reach, from: u8) -> Option<u8>
    requires block { HasBlock image.now.blocks phase.now }
    requires from { from ≤ 32 }
    ensures found { (f : Frame) → frame_in image.now.blocks phase.now ≡ Some f
        → Finds (at f.stores) f.loads (reached reach.old) from result }
    ensures left { (f : Frame) → frame_in image.now.blocks phase.now ≡ Some f → result ≡ None → (a : ℕ)
        → reached reach.new a ≡ narrowed (at f.stores) from numbers (reached reach.old) a }
{
    match flying(phase, image) {
        None => None,
        Some((held, _)) => reach.first_wrong(held.stores(), held.loads(), from),
    }
}

impl Window {
    // What the store of a frame that waits with a number will be resolved to.
    fn will_store(&self, frame: u8, number: u8) -> Option<Stored>
        ensures { result ≡ waiting_store number (frame_of frame self.now.window.frames) }
    {
        let phase = self.phase(frame)?;
        waiting_store(phase, self.image(), number)
    }

    // The lowest load of the frame of an age, with a number from this one on, that took a byte which is reached.
    fn wrong_at(&self, age: u8, reach: &mut Reach, from: u8) -> Option<u8>
        requires { from ≤ 32 }
        ensures found { (f : Frame) → slice_get self.now.window.frames age ≡ Some f
            → Finds (at f.stores) f.loads (reached reach.old) from result }
        ensures left { (f : Frame) → slice_get self.now.window.frames age ≡ Some f → result ≡ None → (a : ℕ)
            → reached reach.new a ≡ narrowed (at f.stores) from numbers (reached reach.old) a }
    {
        match self.phase_at(age) {
            None => None,
            Some(phase) => wrong_in(phase, self.image(), reach, from),
        }
    }

    // How many frames are left, of those from an age on, before the first that took a byte which is reached. A frame
    // without stores and loads is not looked at.
    fn left_from(&self, reach: &mut Reach, from: u8) -> u8
        requires { from ≤ length self.now.window.frames }
        ensures { result ≡ from + untouched (reached reach.old) (drop from self.now.window.frames) }
    {
        let _image = &self.image;
        let count = self.in_flight();
        let mut a = self.accessing_from(from);
        while a < count {
            if self.wrong_at(a, reach, 0).is_some() {
                return a;
            }
            a = self.accessing_from(a + 1);
        }
        count
    }

    // How many frames the store of the frame of an age leaves that waits with a number. It is found before the store
    // is resolved: neither that store nor the lower ones of its frame count.
    fn left_by_store(&self, frame: u8, age: u8, number: u8) -> u8
        requires age { age_of frame self.now.window.frames ≡ Some age }
        requires small { age < 8 }
        requires number { number < 32 }
        requires done { can self.now.image.blocks self.now.budget (window.Store frame number) self.now.window
            ≡ causes.Done }
        ensures { result ≡ left_by (store_left number) (committed self.now.window.state) self.now.window.frames
            frame }
    {
        let _image = &self.image;
        let mut reach = Reach::of(self.will_store(frame, number));
        match self.wrong_at(age, &mut reach, number + 1) {
            None => self.left_from(&mut reach, age + 1),
            Some(_) => age,
        }
    }

    // Resolves the store of a frame that waits with a number, and empties the frames from the first wrong load on.
    pub(crate) fn store(&mut self, frame: u8, number: u8)
        requires done { can self.old.image.blocks self.old.budget (window.Store frame number) self.old.window
            ≡ causes.Done }
        ensures { self.new ≡ record self.old {
          window = done self.old.image.blocks (window.Store frame number) self.old.window;
        } }
    {
        match self.age_of(frame) {
            None => {}
            Some(age) => {
                let left = self.left_by_store(frame, age, number);
                store_in(&mut self.frames[frame as usize], &self.image, number);
                self.storing = with_bit(self.storing, age, true);
                flush_from(&mut self.frames, &mut self.order, &mut self.banks, left);
            }
        }
    }
}
