//! The bytes that a load of a frame in flight sees: of the nearest older stores, else of committed memory.
ghost use Rattle.std.specs.Prelude.{◌≡◌, ◌<◌, ◌≤◌, ◌+◌, ◌^◌, ℕ, Some, length, slice_get, take};
ghost use Rattle.trips_isa.specs.Stores.{byte_seen, bytes_seen};
ghost use Rattle.commit_flush_spec.specs.Causes as causes;
ghost use Rattle.commit_flush_spec.specs.Frames.{Frame, at};
ghost use Rattle.commit_flush_spec.specs.Older.{after_all, committed};
ghost use Rattle.commit_flush_spec.specs.inside.Numbered.{seen_at};
ghost use Rattle.commit_flush_spec.specs.Window as window;
ghost use Rattle.commit_flush_spec.specs.Window.{can, done};
ghost use Rattle.lsq_order.specs.inside.Taking.{IsSought, taken};
ghost use Rattle.frame_state.specs.inside.Held.{taken_if};
ghost use Rattle.frame_state.specs.inside.Changes.{IsWord};
ghost use Rattle.frame_state.specs.inside.Phases.{HasBlock, frame_in};
ghost use Rattle.frame_state.specs.inside.Told.{waiting_load};
ghost use Rattle.commit_flush.specs.inside.Places.{age_of, frame_of};

use crate::bits::with_bit;
use crate::window::Window;
use block_check::CheckedImage;
use frame_state::{Phase, Took, flying, load_in};
use lsq_order::Sought;

// Takes what is still to be found from the stores of a frame below a number.
fn seek_in(phase: &Phase, image: &CheckedImage, below: u8, sought: Sought) -> Sought
    requires block { HasBlock image.now.blocks phase.now }
    requires sound { IsSought sought }
    ensures sound { IsSought result }
    ensures taken { (f : Frame) (mem : ℕ → ℕ) → frame_in image.now.blocks phase.now ≡ Some f
        → taken result mem ≡ taken sought (byte_seen (at f.stores) mem below) }
{
    match flying(phase, image) {
        None => sought,
        Some((held, _)) => sought.pass(held.stores(), below),
    }
}

impl Window {
    // Takes what is still to be found from the stores of the frame of an age below a number.
    fn seek(&self, age: u8, below: u8, sought: Sought) -> Sought
        requires { IsSought sought }
        ensures sound { IsSought result }
        ensures taken { (f : Frame) (mem : ℕ → ℕ) → slice_get self.now.window.frames age ≡ Some f
            → taken result mem ≡ taken sought (byte_seen (at f.stores) mem below) }
    {
        match self.phase_at(age) {
            None => sought,
            Some(phase) => seek_in(phase, self.image(), below, sought),
        }
    }

    // Takes what is still to be found from the stores of the frames before an age, the youngest first. A frame
    // without stores is not looked at.
    fn seek_older(&self, age: u8, sought: Sought) -> Sought
        requires age { age ≤ length self.now.window.frames }
        requires sound { IsSought sought }
        ensures sound { IsSought result }
        ensures taken { taken result (committed self.now.window.state).memory ≡ taken sought
            (after_all (take age self.now.window.frames) (committed self.now.window.state)).memory }
    {
        let mut sought = sought;
        let mut end = self.storing_before(age);
        while end > 0 {
            if sought.is_found() {
                return sought;
            }
            sought = self.seek(end - 1, 32, sought);
            end = self.storing_before(end - 1);
        }
        sought
    }

    // The number that the bytes make which a load of the frame of an age sees.
    fn bytes(&self, age: u8, number: u8, address: u64, size: u8) -> u64
        requires age { age < length self.now.window.frames }
        requires size { size ≤ 8 }
        requires address { address + size < 2 ^ 64 }
        ensures { (f : Frame) → slice_get self.now.window.frames age ≡ Some f → result ≡ bytes_seen (at f.stores)
            (after_all (take age self.now.window.frames) (committed self.now.window.state)).memory
            number address size }
    {
        let own = self.seek(age, number, Sought::of(address, size));
        let sought = self.seek_older(age, own);
        sought.over(self.arch().memory())
    }

    // What the load of a frame that waits with a number takes.
    fn takes(&self, frame: u8, number: u8) -> Option<Took>
        ensures { taken_if result ≡ waiting_load number (frame_of frame self.now.window.frames) }
    {
        let phase = self.phase(frame)?;
        frame_state::waiting_load(phase, self.image(), number)
    }

    // The number that the bytes make which the load of the frame of an age takes that waits with a number.
    fn loaded(&self, frame: u8, age: u8, number: u8) -> u64
        requires { age_of frame self.now.window.frames ≡ Some age }
        ensures { IsWord (seen_at (committed self.now.window.state) self.now.window.frames frame) number result
            (frame_of frame self.now.window.frames) }
    {
        match self.takes(frame, number) {
            None => 0,
            Some(took) => match took {
                Took::Nothing => 0,
                Took::From(address, size) => self.bytes(age, number, address, size),
            },
        }
    }

    // Answers the load of a frame that waits with a number.
    pub(crate) fn load(&mut self, frame: u8, number: u8)
        requires done { can self.old.image.blocks self.old.budget (window.Load frame number) self.old.window
            ≡ causes.Done }
        ensures { self.new ≡ record self.old {
          window = done self.old.image.blocks (window.Load frame number) self.old.window;
        } }
    {
        match self.age_of(frame) {
            None => {}
            Some(age) => {
                let bytes = self.loaded(frame, age, number);
                load_in(&mut self.frames[frame as usize], &self.image, number, bytes);
                self.loading = with_bit(self.loading, age, true);
            }
        }
    }
}
