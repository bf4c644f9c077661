//! What is told of the frames in flight: by age, by number, and what is known behind them.
ghost use Rattle.std.specs.Prelude.{◌≡◌, ◌<◌, ◌≤◌, IfSome, MatchOption, None, Some};
ghost use Rattle.std.specs.Prelude.{[], length, slice_get, slice_index};
ghost use Rattle.commit_flush_spec.specs.Frames.{Frame};
ghost use Rattle.commit_flush_spec.specs.Older.{after_all, committed, follows, successor_of};
ghost use Rattle.commit_flush_spec.specs.InFlight.{is_sealed};
ghost use Rattle.commit_flush_spec.specs.inside.Invariant.{IsRunnable};
ghost use Rattle.frame_state.specs.inside.Held.{exit_of};
ghost use Rattle.frame_state.specs.inside.Phases.{HasBlock, frame_in};
ghost use Rattle.commit_flush.specs.Places.{numbers_of};
ghost use Rattle.commit_flush.specs.inside.Places.{age_of, frame_of, free_number};
ghost use Rattle.commit_flush.specs.inside.Youngest.{IsYoungest, IsSerialBy};
ghost use Rattle.commit_flush.specs.inside.Accesses.{NoneStores, NoneLoads};

use crate::orders;
use crate::window::Window;
use frame_state::{Departure, Phase, block_in, exit_come, is_sealed_in, is_serial_in};
use lsq_order::{end_below, next_from};

/// Whether a block may follow where this is known of the next one.
pub(crate) fn follows(known: Option<u32>, block: u32) -> bool
    ensures value { result ≡ follows known block }
{
    match known {
        None => true,
        Some(next) => next == block,
    }
}

// The block that an exit makes known.
fn successor_of(exit: Option<Departure>) -> Option<u32>
    ensures { result ≡ successor_of (exit_of exit) }
{
    match exit {
        None => None,
        Some(exit) => Some(exit.successor),
    }
}

impl Window {
    /// How many frames are in flight.
    pub fn in_flight(&self) -> u8
        ensures value { result ≡ length self.now.window.frames }
    {
        let order = self.order.as_slice();
        order.len() as u8
    }

    /// The number of the frame of an age, the oldest having age 0.
    pub fn frame_at(&self, age: u8) -> Option<u8>
        ensures value { result ≡ slice_get (numbers_of self.now.window.frames) age }
    {
        orders::number_at(self.order.as_slice(), age as usize)
    }

    /// The age of the frame of a number.
    pub fn age_of(&self, frame: u8) -> Option<u8>
        ensures value { result ≡ age_of frame self.now.window.frames }
        ensures within { IfSome result (λ a. a < 8) }
    {
        orders::place_of(self.order.as_slice(), frame)
    }

    /// The lowest of the eight frames that is not in flight.
    pub fn lowest_empty(&self) -> Option<u8>
        ensures value { result ≡ free_number self.now.window.frames }
        ensures within { IfSome result (λ n. n < 8) }
    {
        orders::free_number(self.order.as_slice())
    }

    /// How often one of the eight frames was filled.
    pub fn generation(&self, frame: u8) -> u64
        requires { frame < 8 }
        ensures value { result ≡ slice_index self.now.window.generations frame }
    {
        self.frames[frame as usize].generation()
    }

    // One of the eight frames.
    pub(crate) fn phase(&self, frame: u8) -> Option<&Phase>
        ensures found { MatchOption result (frame_of frame self.now.window.frames ≡ None)
            (λ p. frame_in self.now.image.blocks p.now ≡ frame_of frame self.now.window.frames) }
        ensures block { IfSome result (λ p. HasBlock self.now.image.blocks p.now) }
        ensures runnable { (f : Frame) → frame_of frame self.now.window.frames ≡ Some f → IsRunnable f.code }
    {
        let _image = &self.image;
        if frame < 8 {
            Some(&self.frames[frame as usize])
        } else {
            None
        }
    }

    // The frame of an age.
    pub(crate) fn phase_at(&self, age: u8) -> Option<&Phase>
        ensures found { MatchOption result (slice_get self.now.window.frames age ≡ None)
            (λ p. frame_in self.now.image.blocks p.now ≡ slice_get self.now.window.frames age) }
        ensures block { IfSome result (λ p. HasBlock self.now.image.blocks p.now) }
    {
        match orders::number_at(self.order.as_slice(), age as usize) {
            None => None,
            Some(frame) => Some(&self.frames[frame as usize]),
        }
    }

    // The youngest frame in flight.
    fn youngest(&self) -> Option<&Phase>
        ensures found { MatchOption result (self.now.window.frames ≡ [])
            (λ p. IsYoungest (frame_in self.now.image.blocks p.now) self.now.window.frames) }
        ensures block { IfSome result (λ p. HasBlock self.now.image.blocks p.now) }
    {
        let count = self.in_flight();
        if count == 0 {
            None
        } else {
            self.phase_at(count - 1)
        }
    }

    /// The next block, where it is known: with no frame in flight the machine's, else where the youngest leads.
    pub fn successor(&self) -> Option<u32>
        ensures value { result
            ≡ (after_all self.now.window.frames (committed self.now.window.state)).known }
    {
        match self.youngest() {
            None => Some(self.arch().next()),
            Some(phase) => successor_of(exit_come(phase, self.image())),
        }
    }

    /// Whether the youngest frame's block may make a system call.
    pub fn is_serial(&self) -> bool
        ensures { result
            ≡ (after_all self.now.window.frames (committed self.now.window.state)).serial }
    {
        match self.youngest() {
            None => false,
            Some(phase) => is_serial_in(phase, self.image()),
        }
    }

    /// The block of the youngest frame in flight, by which it is told whether that may make a system call.
    pub fn youngest_block(&self) -> Option<u32>
        ensures within { IfSome result (λ k. k < length self.now.image.blocks) }
        ensures serial { IsSerialBy self.now.image.blocks result
            (after_all self.now.window.frames (committed self.now.window.state)).serial }
    {
        match self.youngest() {
            None => None,
            Some(phase) => block_in(phase, self.image()),
        }
    }

    // Whether the oldest frame is sealed.
    pub(crate) fn is_sealed(&self) -> bool
        ensures { result ≡ is_sealed self.now.window.frames }
    {
        match self.phase_at(0) {
            None => false,
            Some(phase) => is_sealed_in(phase, self.image()),
        }
    }

    // One past the youngest frame before an age that may have a resolved store, and 0 where none has.
    pub(crate) fn storing_before(&self, age: u8) -> u8
        requires { age ≤ length self.now.window.frames }
        ensures within { result ≤ age }
        ensures none { NoneStores result age self.now.window.frames }
    {
        let _image = &self.image;
        end_below(self.storing, age as u32) as u8
    }

    // The oldest frame from an age on that may have a resolved store or an answered load, and the count of frames
    // where none has.
    pub(crate) fn accessing_from(&self, from: u8) -> u8
        requires { from ≤ length self.now.window.frames }
        ensures onward { from ≤ result }
        ensures within { result ≤ length self.now.window.frames }
        ensures stores { NoneStores from result self.now.window.frames }
        ensures loads { NoneLoads from result self.now.window.frames }
    {
        let count = self.in_flight();
        let next = next_from(self.storing | self.loading, from as u32);
        next.min(count as u32) as u8
    }
}
