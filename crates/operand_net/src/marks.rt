//! Marks on places, by bits.
ghost use Rattle.std.specs.Prelude.{◌≡◌, ◌<◌, ◌≤◌, ◌+◌, ◌-◌, ◌*◌, ◌==◌, ℕ, cond, true, false};
ghost use Rattle.operand_net.specs.Marks.{has_bit};
ghost use Rattle.operand_net.specs.inside.Marks.{marked, IsLowestBit, IsLowest};

use std::marker::Model;

/// Which of the 320 places of each of eight frames are marked.
///
/// The places of a frame are five words, and `full` has a bit for each word that has a mark, so that
/// looking for the next mark passes over empty words and empty frames at once.
#[derive(Debug, Drop)]
pub struct Marks {
    words: [u64; 40],
    full: u64,
}

impl Model for Marks {
    ghost use Rattle.std.specs.Prelude.{List, ℕ};
    ghost use Rattle.operand_net.specs.inside.Marks.{IsFull};

    ghost Value = { List ℕ };

    ghost view = { λ m. m.words };

    ghost invariant = { λ m. IsFull m.words m.full };
}

// The word with a bit as it is told.
fn with_bit(word: u64, bit: usize, on: bool) -> u64
    requires { bit < 64 }
    ensures { (i : ℕ) → i < 64 → has_bit result i ≡ cond (i == bit) on (has_bit word i) }
{
    if on {
        word | (1 << bit)
    } else {
        word & !(1 << bit)
    }
}

// The lowest bit of a word that is 1, from a bit on; 64 where there is none.
fn lowest_bit(word: u64, from: usize) -> usize
    requires { from < 64 }
    ensures { IsLowestBit word from result }
{
    let rest = word >> from;
    if rest == 0 {
        64
    } else {
        from + rest.trailing_zeros() as usize
    }
}

impl Marks {
    /// No place is marked.
    pub fn none() -> Marks
        ensures { (q : ℕ) → marked result q ≡ false }
    {
        Marks {
            words: [0; 40],
            full: 0,
        }
    }

    /// Marks a place, or takes its mark away.
    pub fn set(&mut self, place: usize, on: bool)
        requires { place < 2560 }
        ensures { (q : ℕ) → marked self.new q ≡ cond (q == place) on (marked self.old q) }
    {
        let word = with_bit(self.words[place / 64], place % 64, on);
        self.words[place / 64] = word;
        self.full = with_bit(self.full, place / 64, word != 0);
    }

    /// Whether no place is marked; a marked place is never passed over.
    pub fn is_empty(&self) -> bool
        ensures { result ≡ true → (q : ℕ) → marked self.now q ≡ false }
    {
        self.full == 0
    }

    /// The lowest marked place of a frame, from a place on; 320 where there is none.
    pub fn lowest(&self, frame: u8, from: usize) -> usize
        requires frame { frame < 8 }
        requires from { from ≤ 320 }
        ensures { IsLowest self.now frame from result }
    {
        if from < 320 {
            self.lowest_from(frame, from)
        } else {
            320
        }
    }

    // The same, from one of the frame's places on.
    fn lowest_from(&self, frame: u8, from: usize) -> usize
        requires frame { frame < 8 }
        requires from { from < 320 }
        ensures { IsLowest self.now frame from result }
    {
        let word = 5 * frame as usize + from / 64;
        let bit = lowest_bit(self.words[word], from % 64);
        if bit < 64 {
            64 * (from / 64) + bit
        } else {
            self.lowest_behind(frame, word)
        }
    }

    // The same, behind one of the frame's words.
    fn lowest_behind(&self, frame: u8, word: usize) -> usize
        requires frame { frame < 8 }
        requires first { 5 * frame ≤ word }
        requires last { word < 5 * frame + 5 }
        ensures { IsLowest self.now frame (64 * (word - 5 * frame) + 64) result }
    {
        let next = lowest_bit(self.full, word + 1);
        if next < 5 * frame as usize + 5 {
            64 * (next - 5 * frame as usize) + lowest_bit(self.words[next], 0)
        } else {
            320
        }
    }
}
