//! The history of each frame.
ghost use Rattle.std.specs.Prelude.{◌≡◌, ◌<◌, ◌==◌, ℕ, cond, slice_index_or};

use std::marker::Model;

/// The history under which each of the eight frames was fetched, below 1,024.
#[derive(Debug, Drop)]
pub struct Histories {
    words: [u16; 8],
}

impl Model for Histories {
    ghost use Rattle.std.specs.Prelude.{List, ℕ};
    ghost use Rattle.grid_parts.specs.inside.Fetches.{AreHistories};

    ghost Value = { List ℕ };

    ghost view = { λ h. h.words };

    ghost invariant = { λ h. AreHistories h.words };
}

impl Histories {
    /// All are 0.
    pub fn none() -> Histories
        ensures { (f : ℕ) → slice_index_or result f 0 ≡ 0 }
    {
        Histories { words: [0; 8] }
    }

    /// The history of a frame.
    pub fn get(&self, frame: u8) -> u16
        requires { frame < 8 }
        ensures value { result ≡ slice_index_or self.now frame 0 }
        ensures within { result < 1024 }
    {
        self.words[frame as usize]
    }

    /// A frame has another history.
    pub fn set(&mut self, frame: u8, history: u16)
        requires frame { frame < 8 }
        requires history { history < 1024 }
        ensures { (f : ℕ) → slice_index_or self.new f 0 ≡ cond (f == frame) history (slice_index_or self.old f 0) }
    {
        self.words[frame as usize] = history;
    }
}
