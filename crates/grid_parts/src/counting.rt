//! What a commit leaves behind: what is learned, and counts.
ghost use Rattle.std.specs.Prelude.{◌≡◌, ◌<◌, ◌+◌, ◌^◌};
ghost use Rattle.commit_flush_spec.specs.Window.{Window};
ghost use Rattle.grid_cycle_spec.specs.Cycles as cycle_spec;
ghost use Rattle.grid_parts.specs.Seen.{seen};
ghost use Rattle.grid_parts.specs.inside.Changes.{committed_more, learned_of};

use crate::state::State;

impl<W> State<W> {
    /// The predictor learns the exit that a frame took of its block.
    pub fn learn(&mut self, block: u32, frame: u8, exit: u8)
        requires { frame < 8 }
        ensures { (w : Window) → seen w self.new ≡ learned_of block frame exit (seen w self.old) }
    {
        let history = self.histories.get(frame);
        self.predictor.learn(block, history, exit);
    }

    /// One block more has been committed.
    pub fn count_commit(&mut self)
        requires { self.old.counts.committed + 1 < 2 ^ 64 }
        ensures { (w : Window) → seen w self.new ≡ committed_more (seen w self.old) }
    {
        self.counts.committed += 1;
    }

    /// One cycle more has been made.
    pub fn count_cycle(&mut self)
        requires { self.old.counts.cycles + 1 < 2 ^ 64 }
        ensures { (w : Window) → seen w self.new ≡ cycle_spec.counted (seen w self.old) }
    {
        self.counts.cycles += 1;
    }
}
