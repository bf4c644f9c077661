//! Four places for scalars.

ghost use Rattle.std.specs.Prelude.{◌≡◌, ◌<◌, length, slice_get, slice_set};
ghost use Rattle.c_meaning_spec.specs.State.{held};

use std::marker::Model;

/// Four places, each with a word where it is set.
#[derive(Drop)]
pub struct Few {
    words: [u64; 4],
    is_set: [bool; 4],
}

impl Model for Few {
    ghost use Rattle.std.specs.Prelude.{◌≡◌, List, ℕ, Option, length};
    ghost use Rattle.c_meaning.specs.inside.Given.{values};

    ghost Value = { List (Option ℕ) };

    ghost view = { λ p. values p.is_set p.words };

    ghost invariant = { λ p. (length p.words ≡ 4) × (length p.is_set ≡ 4) };
}

impl Few {
    /// No place is set.
    #[inline(always)]
    pub fn none() -> Few
        ensures { length result ≡ 4 }
    {
        Few {
            words: [0; 4],
            is_set: [false; 4],
        }
    }

    /// The word of a place, if it is set.
    #[inline(always)]
    pub fn get(&self, at: u32) -> Option<u64>
        requires { at < 4 }
        ensures { result ≡ held (slice_get self.now at) }
    {
        if self.is_set[at as usize] {
            Some(self.words[at as usize])
        } else {
            None
        }
    }

    /// Sets a place, or unsets it.
    #[inline(always)]
    pub fn put(&mut self, at: u32, value: Option<u64>)
        requires { at < 4 }
        ensures after { self.new ≡ slice_set self.old at value }
        ensures size { length self.new ≡ 4 }
    {
        match value {
            None => {
                self.is_set[at as usize] = false;
            }
            Some(word) => {
                self.words[at as usize] = word;
                self.is_set[at as usize] = true;
            }
        }
    }
}
