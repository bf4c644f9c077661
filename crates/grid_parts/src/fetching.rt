//! How fetches end and begin.
ghost use Rattle.std.specs.Prelude.{◌≡◌, ◌<◌, ◌+◌, ◌^◌, Some, false, is_none, length};
ghost use Rattle.block_predict.specs.Predicts.{entered, predicted};
ghost use Rattle.commit_flush_spec.specs.Window.{Window};
ghost use Rattle.grid_cycle_spec.specs.Acting as acting;
ghost use Rattle.grid_cycle_spec.specs.Fetches as spec;
ghost use Rattle.grid_cycle_spec.specs.Grid.{Fetching};
ghost use Rattle.grid_parts.specs.inside.Fetches.{due};
ghost use Rattle.grid_parts.specs.Seen.{seen};
ghost use Rattle.grid_parts.specs.inside.Changes.{fetch_nearer, filled_by, given_up};

use crate::state::State;
use block_check::CheckedImage;
use block_predict::entered;

impl<W> State<W> {
    /// Whether nothing is fetched.
    pub fn is_idle(&self) -> bool
        ensures { result ≡ is_none self.now.fetching }
    {
        self.fetching.is_idle()
    }

    /// A fetch goes on by a cycle; the block whose fetch makes its event now.
    pub fn fetch_on(&mut self) -> Option<u32>
        ensures value { result ≡ due self.old.fetching }
        ensures change { (w : Window) → seen w self.new ≡ fetch_nearer (seen w self.old) }
    {
        let due = self.fetching.due();
        self.fetching.go_on();
        due
    }

    /// What is fetched is given up.
    pub fn give_up(&mut self)
        ensures { (w : Window) → seen w self.new ≡ given_up (seen w self.old) }
    {
        self.fetching.clear();
    }

    /// The fetch has filled a frame, which keeps its history and its careful mark; no flushed block stands any more.
    pub fn fill(&mut self, frame: u8)
        requires frame { frame < 8 }
        requires room { self.old.counts.fetched + 1 < 2 ^ 64 }
        ensures { (w : Window) (f : Fetching) → self.old.fetching ≡ Some f
            → seen w self.new ≡ filled_by frame f (seen w self.old) }
    {
        let history = self.fetching.history();
        let careful = self.fetching.is_careful();
        self.careful.set(frame as usize, careful);
        self.histories.set(frame, history);
        self.fetching.clear();
        self.standing = None;
        self.counts.fetched += 1;
    }

    /// A fetch of a block begins, under the history that stands.
    pub fn begin(&mut self, block: u32, careful: bool)
        ensures { (w : Window) → seen w self.new ≡ spec.begun block careful (seen w self.old) }
    {
        let history = self.predictor.history();
        self.fetching.begin(block, history, careful);
    }

    /// A fetch begins of what is predicted after a block, where something is predicted.
    pub fn begin_predicted(&mut self, image: &CheckedImage, number: u32)
        requires { number < length image.now.blocks }
        ensures { (w : Window) → seen w self.new ≡ spec.begun_predicted image.now.blocks number
            (predicted image.now.blocks self.old.predictor number) (seen w self.old) }
    {
        match self.predictor.predict(image, number) {
            Some(next) => self.begin(next, false),
            None => {}
        }
    }

    /// Whether a block stands as a flushed one.
    pub fn stands(&self, block: u32) -> bool
        ensures { result ≡ spec.stands self.now.standing block }
    {
        match self.standing {
            Some(standing) => standing == block,
            None => false,
        }
    }

    /// The history becomes that behind a frame which took an exit.
    pub fn enter_exit(&mut self, frame: u8, exit: u8)
        requires { frame < 8 }
        ensures { (w : Window) → seen w self.new
            ≡ acting.repaired (entered ((seen w self.old).histories frame) exit) (seen w self.old) }
    {
        let history = entered(self.histories.get(frame), exit);
        self.predictor.repair(history);
    }
}
