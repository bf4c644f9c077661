//! Flags in words of 64 bits.
ghost use Rattle.std.specs.Prelude.{◌≡◌, ◌<◌, ◌≤◌, ◌+◌, ◌*◌, ℕ, true, false, length, replicate};
ghost use Rattle.std.specs.Prelude.{slice_index_or, slice_set};
ghost use Rattle.base.specs.Rows.{has_bit};
ghost use Rattle.base.specs.inside.Rows.{no_flags};

use std::marker::Model;

/// N flags in W words, seen as the list of them.
#[derive(Drop)]
pub struct Flags<const N: usize, const W: usize> {
    words: [u64; W],
}

impl<const N: usize, const W: usize> Model for Flags<N, W> {
    ghost use Rattle.std.specs.Prelude.{◌≡◌, ◌≤◌, ◌*◌, Bool, List, length};
    ghost use Rattle.base.specs.Rows.{flags};

    ghost Value = { List Bool };

    ghost view = { λ f. flags N f.words };

    ghost invariant = { λ f. (N ≤ 64 * W) × (length f.words ≡ W) };
}

// Words without a bit.
fn zeros<const W: usize>() -> [u64; W]
    ensures { result ≡ replicate W 0 }
{
    [0; W]
}

impl<const N: usize, const W: usize> Flags<N, W> {
    /// No flag is set. The words have room for all.
    pub fn none() -> Flags<N, W>
        requires { N ≤ 64 * W }
        ensures { result ≡ no_flags N }
    {
        Flags { words: zeros() }
    }

    /// Whether a flag is set; none past the last is.
    #[inline]
    pub fn has(&self, q: usize) -> bool
        ensures value { result ≡ slice_index_or self.now q false }
        ensures size { length self.now ≡ N }
    {
        let words = &self.words;
        q < N && (words[q / 64] >> (q % 64)) & 1 == 1
    }

    /// Sets a flag, if there is one of this number.
    #[inline]
    pub fn put(&mut self, q: usize)
        ensures value { self.new ≡ slice_set self.old q true }
        ensures size { length self.old ≡ N }
    {
        let _ = &self.words;
        if q < N {
            self.words[q / 64] |= 1 << (q % 64);
        }
    }

    /// Clears a flag, if there is one of this number.
    #[inline]
    pub fn take(&mut self, q: usize)
        ensures value { self.new ≡ slice_set self.old q false }
        ensures size { length self.old ≡ N }
    {
        let _ = &self.words;
        if q < N {
            self.words[q / 64] &= !(1 << (q % 64));
        }
    }

    /// Sets or clears a flag, if there is one of this number.
    #[inline]
    pub fn set(&mut self, q: usize, flag: bool)
        ensures value { self.new ≡ slice_set self.old q flag }
        ensures size { length self.old ≡ N }
    {
        if flag { self.put(q) } else { self.take(q) }
    }

    /// Clears all flags.
    pub fn clear(&mut self)
        ensures value { self.new ≡ no_flags N }
    {
        self.words = zeros();
    }

    /// The flags from number 64 k on as bits.
    #[inline]
    pub fn word(&self, k: usize) -> u64
        requires { k < W }
        ensures value { (s : ℕ) → s < 64 → 64 * k + s < N
            → has_bit result s ≡ slice_index_or self.now (64 * k + s) false }
    {
        self.words[k]
    }
}
