//! What an event that may flush takes along.
ghost use Rattle.std.specs.Prelude.{◌≡◌, ◌<◌, ◌≤◌, ◌+◌, ◌^◌, List, All, drop, length};
ghost use Rattle.commit_flush_spec.specs.Frames.{Frame};
ghost use Rattle.grid_cycle_spec.specs.Acting as acting;
ghost use Rattle.grid_cycle_spec.specs.Grid.{numbers_of};
ghost use Rattle.grid_parts.specs.Seen.{seen};

use crate::grid::Grid;
use crate::windows::Windows;

impl<V: Windows, W> Grid<V, W> {
    // The youngest of these frames, but for so many, have been flushed.
    fn flush_behind(&mut self, left: usize, before: &[u8])
        requires within { All (λ n. n < 8) before.now }
        requires room { self.old.state.counts.flushed + length before.now < 2 ^ 64 }
        ensures change { (fs : List Frame) → numbers_of fs ≡ before.now
            → seen (V.held self.new.window) self.new.state
            ≡ acting.flushed (drop left fs) (seen (V.held self.old.window) self.old.state) }
        ensures same { self.new.window ≡ self.old.window }
    {
        if left <= before.len() {
            self.state.flush(&before[left..]);
        }
    }

    /// An event has happened to a window that had these frames: those that are gone have been flushed, and what is
    /// known of the next block settles what is fetched.
    pub fn acted(&mut self, before: &[u8])
        requires within { All (λ n. n < 8) before.now }
        requires room { self.old.state.counts.flushed + length before.now < 2 ^ 64 }
        ensures change { (fs : List Frame) → numbers_of fs ≡ before.now
            → seen (V.held self.new.window) self.new.state
            ≡ acting.settled (acting.flushed (drop (length (V.held self.old.window).frames) fs)
            (seen (V.held self.old.window) self.old.state)) }
        ensures few { (fs : List Frame) → numbers_of fs ≡ before.now
            → self.new.state.counts.flushed ≤ self.old.state.counts.flushed + length before.now }
        ensures same { self.new.window ≡ self.old.window }
    {
        let left = self.window.numbers().len();
        self.flush_behind(left, before);
        let known = self.window.successor();
        self.state.settle(known);
    }
}
