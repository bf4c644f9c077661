//! Part (2) of a cycle: a fetch ends, and the next one begins.
ghost use Rattle.std.specs.Prelude.{◌≡◌, ◌<◌, ◌+◌, ◌^◌, Some, All, length};
ghost use Rattle.commit_flush_spec.specs.Frames as framing;
ghost use Rattle.commit_flush_spec.specs.Frames.{Frame};
ghost use Rattle.commit_flush_spec.specs.inside.Laws.{AreNumbers};
ghost use Rattle.commit_flush_spec.specs.Window as event;
ghost use Rattle.grid_cycle_spec.specs.Acting.{may};
ghost use Rattle.grid_cycle_spec.specs.Fetches as spec;
ghost use Rattle.grid_cycle_spec.specs.Grid.{Fetching, numbers_of};
ghost use Rattle.grid_parts.specs.Seen.{seen};
ghost use Rattle.grid_parts.specs.inside.Asked.{frame_of};
ghost use Rattle.grid_parts.specs.inside.Youngest.{IsYoungest};

use crate::grid::Grid;
use crate::windows::Windows;

impl<V: Windows, W> Grid<V, W> {
    // The fetch of a block makes its event where that is done, and else is given up.
    fn fetch_due(&mut self, block: u32)
        requires { self.old.state.counts.fetched + 1 < 2 ^ 64 }
        ensures change { (f : Fetching) → self.old.state.fetching ≡ Some f → f.block ≡ block
            → seen (V.held self.new.window) self.new.state
            ≡ spec.fill_where (may (V.blocks self.old.window) (V.budget self.old.window) (event.Fetch f.block)
            (seen (V.held self.old.window) self.old.state)) (V.blocks self.old.window) (V.budget self.old.window) f
            (seen (V.held self.old.window) self.old.state) }
        ensures image { V.blocks self.new.window ≡ V.blocks self.old.window }
        ensures budget { V.budget self.new.window ≡ V.budget self.old.window }
    {
        if self.window.can_fetch(block) {
            match self.window.lowest_empty() {
                Some(frame) => {
                    self.window.fetch(block);
                    self.state.fill(frame);
                }
                None => self.state.give_up(),
            }
        } else {
            self.state.give_up();
        }
    }

    /// What is being fetched goes on.
    pub fn fetch_goes_on(&mut self)
        requires { self.old.state.counts.fetched + 1 < 2 ^ 64 }
        ensures change { seen (V.held self.new.window) self.new.state
            ≡ spec.fetch_ends (V.blocks self.old.window) (V.budget self.old.window) self.old.state.fetching
            (seen (V.held self.old.window) self.old.state) }
        ensures image { V.blocks self.new.window ≡ V.blocks self.old.window }
        ensures budget { V.budget self.new.window ≡ V.budget self.old.window }
    {
        match self.state.fetch_on() {
            Some(block) => self.fetch_due(block),
            None => {}
        }
    }

    // Behind a youngest frame whose exit has not come: the flushed block that stands, else what is predicted.
    fn begins_guess(&mut self, block: u32)
        requires { block < length (V.blocks self.old.window) }
        ensures change { (f : Frame) → f.block ≡ block → seen (V.held self.new.window) self.new.state
            ≡ spec.begun_guess (V.blocks self.old.window) self.old.state.standing f
            (seen (V.held self.old.window) self.old.state) }
        ensures same { self.new.window ≡ self.old.window }
    {
        match self.state.standing {
            Some(standing) => self.state.begin(standing, true),
            None => self.state.begin_predicted(self.window.image(), block),
        }
    }

    // Behind a youngest frame whose exit names the next block.
    fn begins_known(&mut self, frame: u8, exit: u8, block: u32)
        requires { frame < 8 }
        ensures change { (f : Frame) (e : framing.Exit) → f.number ≡ frame → e.exit ≡ exit → e.successor ≡ block
            → seen (V.held self.new.window) self.new.state
            ≡ spec.begun_behind (V.blocks self.old.window) f (Some e) (seen (V.held self.old.window) self.old.state) }
        ensures same { self.new.window ≡ self.old.window }
    {
        let stands = self.state.stands(block);
        self.state.enter_exit(frame, exit);
        self.state.begin(block, stands);
    }

    // Behind a youngest frame: the block that its exit names, else a guess.
    fn begins_behind(&mut self, frame: u8, block: u32)
        requires frame { frame < 8 }
        requires block { block < length (V.blocks self.old.window) }
        ensures change { (f : Frame) → frame_of frame (V.held self.old.window).frames ≡ Some f → f.block ≡ block
            → IsYoungest f (V.held self.old.window).frames → seen (V.held self.new.window) self.new.state
            ≡ spec.begun_behind (V.blocks self.old.window) f f.exit (seen (V.held self.old.window) self.old.state) }
        ensures same { self.new.window ≡ self.old.window }
    {
        match self.window.exit_of(frame) {
            Some(exit) => match self.window.successor() {
                Some(next) => self.begins_known(frame, exit, next),
                None => {}
            },
            None => self.begins_guess(block),
        }
    }

    // Behind the frames in flight; with none the committed next block.
    fn begins_after(&mut self, order: &[u8])
        requires order { order.now ≡ numbers_of (V.held self.old.window).frames }
        requires within { All (λ n. n < 8) order.now }
        requires distinct { AreNumbers order.now }
        ensures change { seen (V.held self.new.window) self.new.state
            ≡ spec.begun_after (V.blocks self.old.window) (V.held self.old.window).frames
            (seen (V.held self.old.window) self.old.state) }
        ensures same { self.new.window ≡ self.old.window }
    {
        if order.len() > 0 {
            let frame = order[order.len() - 1];
            match self.window.block_of(frame) {
                Some(block) => self.begins_behind(frame, block),
                None => {}
            }
        } else {
            match self.window.successor() {
                Some(block) => {
                    let stands = self.state.stands(block);
                    self.state.begin(block, stands);
                }
                None => {}
            }
        }
    }

    /// Whether a fetch may begin: a frame is empty, the youngest makes no system call, and no more frames are in
    /// flight than may be.
    pub fn may_begin(&self) -> bool
        ensures { result ≡ spec.may_begin (seen (V.held self.now.window) self.now.state) }
    {
        if self.window.has_room() {
            self.window.numbers().len() <= self.state.predictor.ahead() as usize
        } else {
            false
        }
    }

    /// An idle fetch unit begins a fetch.
    pub fn fetch_begins(&mut self)
        ensures change { seen (V.held self.new.window) self.new.state
            ≡ spec.begins (V.blocks self.old.window) (seen (V.held self.old.window) self.old.state) }
        ensures same { self.new.window ≡ self.old.window }
    {
        if self.state.is_idle() {
            if self.may_begin() {
                let frames = self.window.numbers();
                self.begins_after(frames.as_slice());
            }
        }
    }

    /// Part (2).
    pub fn fetches(&mut self)
        requires { self.old.state.counts.fetched + 1 < 2 ^ 64 }
        ensures change { seen (V.held self.new.window) self.new.state
            ≡ spec.fetches (V.blocks self.old.window) (V.budget self.old.window)
            (seen (V.held self.old.window) self.old.state) }
        ensures image { V.blocks self.new.window ≡ V.blocks self.old.window }
        ensures budget { V.budget self.new.window ≡ V.budget self.old.window }
    {
        self.fetch_goes_on();
        self.fetch_begins();
    }
}
