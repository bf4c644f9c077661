//! Part (1) of a cycle: what is complete is sealed, and the oldest frame commits.
ghost use Rattle.std.specs.Prelude.{◌≡◌, ◌<◌, ◌≤◌, ◌+◌, ◌^◌, ◌==◌, List, ◌∷◌, All, length};
ghost use Rattle.commit_flush_spec.specs.Frames.{Frame};
ghost use Rattle.grid_cycle_spec.specs.Acting as acting;
ghost use Rattle.grid_cycle_spec.specs.Ends as spec;
ghost use Rattle.grid_cycle_spec.specs.Grid.{forget, numbers_of};
ghost use Rattle.grid_parts.specs.inside.Changes.{committed_more};
ghost use Rattle.grid_parts.specs.Seen.{seen};
ghost use Rattle.grid_parts.specs.inside.Asked.{number_of};

use crate::grid::Grid;
use crate::windows::Windows;
use trips_isa::Stepped;

impl<V: Windows, W> Grid<V, W> {
    /// A frame with all outputs is sealed, and loses what is still under way.
    pub fn seal_one(&mut self, frame: u8)
        requires { frame < 8 }
        ensures change { seen (V.held self.new.window) self.new.state
            ≡ spec.seal_one (V.blocks self.old.window) (V.budget self.old.window) frame
            (seen (V.held self.old.window) self.old.state) }
        ensures counts { self.new.state.counts ≡ self.old.state.counts }
        ensures image { V.blocks self.new.window ≡ V.blocks self.old.window }
        ensures budget { V.budget self.new.window ≡ V.budget self.old.window }
    {
        if self.window.can_seal(frame) {
            self.window.seal(frame);
            self.state.forget(frame);
        }
    }

    // So in each of some frames.
    fn seal_each(&mut self, order: &[u8])
        requires { All (λ n. n < 8) order.now }
        ensures change { seen (V.held self.new.window) self.new.state
            ≡ spec.seal_each (V.blocks self.old.window) (V.budget self.old.window) order.now
            (seen (V.held self.old.window) self.old.state) }
        ensures counts { self.new.state.counts ≡ self.old.state.counts }
        ensures image { V.blocks self.new.window ≡ V.blocks self.old.window }
        ensures budget { V.budget self.new.window ≡ V.budget self.old.window }
    {
        for n in 0..order.len() {
            self.seal_one(order[n]);
        }
    }

    // The predictor learns the exit that a frame took, where it took one.
    fn learn_exit(&mut self, frame: u8, block: u32, exit: Option<u8>)
        requires { frame < 8 }
        ensures change { (f : Frame) → f.number ≡ frame → f.block ≡ block → exit ≡ number_of f.exit
            → seen (V.held self.new.window) self.new.state
            ≡ spec.learning f f.exit (seen (V.held self.old.window) self.old.state) }
        ensures same { self.new.window ≡ self.old.window }
    {
        match exit {
            Some(exit) => self.state.learn(block, frame, exit),
            None => {}
        }
    }

    // A frame has committed, which had this block and exit.
    fn commits(&mut self, frame: u8, block: u32, exit: Option<u8>)
        requires frame { frame < 8 }
        requires room { self.old.state.counts.committed + 1 < 2 ^ 64 }
        ensures change { (f : Frame) → f.number ≡ frame → f.block ≡ block → exit ≡ number_of f.exit
            → seen (V.held self.new.window) self.new.state
            ≡ acting.settled (forget (λ m. m == f.number) (spec.learning f f.exit
            (committed_more (seen (V.held self.old.window) self.old.state)))) }
        ensures same { self.new.window ≡ self.old.window }
    {
        self.state.count_commit();
        self.learn_exit(frame, block, exit);
        self.state.forget(frame);
        let known = self.window.successor();
        self.state.settle(known);
    }

    // The oldest of these frames, which had this block and exit, has committed, or the run has trapped, which flushes
    // all of them.
    fn committed(&mut self, order: &[u8], block: u32, exit: Option<u8>)
        requires some { 0 < length order.now }
        requires within { All (λ n. n < 8) order.now }
        requires committed { self.old.state.counts.committed + 1 < 2 ^ 64 }
        requires flushed { self.old.state.counts.flushed + length order.now < 2 ^ 64 }
        ensures change { (f : Frame) (fs : List Frame) → numbers_of (f ∷ fs) ≡ order.now → f.block ≡ block
            → exit ≡ number_of f.exit → seen (V.held self.new.window) self.new.state
            ≡ spec.committed_as (V.held self.old.window).over f fs (seen (V.held self.old.window) self.old.state) }
        ensures same { self.new.window ≡ self.old.window }
    {
        match self.window.over() {
            Stepped::Trap(_) => self.state.flush(order),
            Stepped::Went => self.commits(order[0], block, exit),
            Stepped::Ended => self.commits(order[0], block, exit),
            Stepped::StackFull => self.commits(order[0], block, exit),
        }
    }

    // A sealed oldest frame of these, which are all in flight, is committed.
    fn commit_first(&mut self, order: &[u8])
        requires order { order.now ≡ numbers_of (V.held self.old.window).frames }
        requires few { length order.now ≤ 8 }
        requires within { All (λ n. n < 8) order.now }
        requires committed { self.old.state.counts.committed + 1 < 2 ^ 64 }
        requires flushed { self.old.state.counts.flushed + 8 < 2 ^ 64 }
        ensures change { seen (V.held self.new.window) self.new.state
            ≡ spec.commit_in (V.blocks self.old.window) (V.budget self.old.window) (V.held self.old.window).frames
            (seen (V.held self.old.window) self.old.state) }
        ensures image { V.blocks self.new.window ≡ V.blocks self.old.window }
        ensures budget { V.budget self.new.window ≡ V.budget self.old.window }
    {
        if order.len() > 0 {
            match self.window.block_of(order[0]) {
                Some(block) => {
                    let exit = self.window.exit_of(order[0]);
                    self.window.commit();
                    self.committed(order, block, exit);
                }
                None => {}
            }
        }
    }

    /// A sealed oldest frame is committed. It wants room in the counts as part (1) does.
    pub fn commit_oldest(&mut self)
        requires committed { self.old.state.counts.committed + 1 < 2 ^ 64 }
        requires flushed { self.old.state.counts.flushed + 8 < 2 ^ 64 }
        ensures change { seen (V.held self.new.window) self.new.state
            ≡ spec.commit_oldest (V.blocks self.old.window) (V.budget self.old.window)
            (seen (V.held self.old.window) self.old.state) }
        ensures image { V.blocks self.new.window ≡ V.blocks self.old.window }
        ensures budget { V.budget self.new.window ≡ V.budget self.old.window }
    {
        if self.window.can_commit() {
            let frames = self.window.numbers();
            self.commit_first(frames.as_slice());
        }
    }

    /// Part (1). It wants room for one commit more in the counts, and for eight flushed frames.
    pub fn ends(&mut self)
        requires committed { self.old.state.counts.committed + 1 < 2 ^ 64 }
        requires flushed { self.old.state.counts.flushed + 8 < 2 ^ 64 }
        ensures change { seen (V.held self.new.window) self.new.state
            ≡ spec.ends (V.blocks self.old.window) (V.budget self.old.window)
            (seen (V.held self.old.window) self.old.state) }
        ensures image { V.blocks self.new.window ≡ V.blocks self.old.window }
        ensures budget { V.budget self.new.window ≡ V.budget self.old.window }
    {
        let frames = self.window.numbers();
        self.seal_each(frames.as_slice());
        self.commit_oldest();
    }
}
