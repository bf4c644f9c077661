//! Which predictions are right.
ghost use Rattle.std.specs.Prelude.{◌≡◌, ◌<◌, ℕ, ◌∷◌, []};
ghost use Rattle.grid_events.specs.Counts.{one_if};
ghost use Rattle.grid_events.specs.Notes.{Predicts, Fetches, Leaves};
ghost use Rattle.grid_tallies.specs.Predictions.{AreGuesses, Guessed};
ghost use Rattle.grid_tallies.specs.inside.Leaving.{is_right};

use crate::tallies::more;

/// The blocks that are guessed behind frames, and how many guesses were right. The number is exact while it has room
/// in 64 bits.
#[derive(Clone, Copy, Debug)]
pub struct Guesses {
    /// the block last predicted behind each frame, where its exit has not come since, nor has it been filled anew
    pub behind: [Option<u32>; 8],
    /// the exits that named the block which was guessed
    pub right: u64,
}

// One, where an exit names the block that was guessed.
fn one_right(guess: Option<u32>, named: Option<u32>) -> u64
    ensures { result ≡ one_if (is_right guess named) }
{
    match guess {
        Some(guess) => match named {
            Some(named) => { if guess == named { 1 } else { 0 } }
            None => 0,
        },
        None => 0,
    }
}

impl Guesses {
    /// Nothing is guessed yet.
    pub fn none() -> Guesses
        ensures { AreGuesses [] result }
    {
        Guesses {
            behind: [None; 8],
            right: 0,
        }
    }

    /// A block is predicted behind a frame.
    pub fn predict(&mut self, frame: u8, block: u32)
        requires { frame < 8 }
        ensures { Guessed self.old (Predicts frame block ∷ []) self.new }
    {
        self.behind[frame as usize] = Some(block);
    }

    /// A frame is filled.
    pub fn fill(&mut self, frame: u8)
        requires { frame < 8 }
        ensures { (block : ℕ) → Guessed self.old (Fetches frame block ∷ []) self.new }
    {
        self.behind[frame as usize] = None;
    }

    /// The exit of a frame comes, and names a block.
    pub fn leave(&mut self, frame: u8, block: Option<u32>)
        requires { frame < 8 }
        ensures { Guessed self.old (Leaves frame block ∷ []) self.new }
    {
        let right = one_right(self.behind[frame as usize], block);
        self.right = more(self.right, right);
        self.behind[frame as usize] = None;
    }
}
