//! Flags of the eight frames, a word of bits for each.
ghost use Rattle.std.specs.Prelude.{◌≡◌, ◌<◌, ◌==◌, ◌&&◌, ◌||◌, ℕ, cond, false, slice_index_or};
ghost use Rattle.operand_net.specs.Marks.{has_bit};
ghost use Rattle.grid_parts.specs.Bits.{frame_bit};

/// 128 flags of each frame.
#[derive(Debug, Drop)]
pub struct FrameFlags {
    pub words: [u128; 8],
}

// The word with one more bit.
fn with_bit(word: u128, bit: u8) -> u128
    requires { bit < 128 }
    ensures { (i : ℕ) → has_bit result i ≡ ((i == bit) || has_bit word i) }
{
    word | (1 << bit)
}

// The word with one bit less.
fn without_bit(word: u128, bit: u8) -> u128
    requires { bit < 128 }
    ensures { (i : ℕ) → has_bit result i ≡ cond (i == bit) false (has_bit word i) }
{
    word & !(1 << bit)
}

impl FrameFlags {
    /// No flag is set.
    pub fn none() -> FrameFlags
        ensures { (f n : ℕ) → frame_bit result.words f n ≡ false }
    {
        FrameFlags { words: [0; 8] }
    }

    /// Whether a flag is set.
    pub fn has(&self, frame: u8, flag: u8) -> bool
        requires frame { frame < 8 }
        requires flag { flag < 128 }
        ensures { result ≡ frame_bit self.now.words frame flag }
    {
        (self.words[frame as usize] >> flag) & 1 == 1
    }

    /// The flags of a frame, as bits.
    pub fn word(&self, frame: u8) -> u128
        requires { frame < 8 }
        ensures { result ≡ slice_index_or self.now.words frame 0 }
    {
        self.words[frame as usize]
    }

    /// Sets a flag.
    pub fn put(&mut self, frame: u8, flag: u8)
        requires frame { frame < 8 }
        requires flag { flag < 128 }
        ensures { frame_bit self.new.words
            ≡ (λ (g k : ℕ). ((g == frame) && (k == flag)) || frame_bit self.old.words g k) }
    {
        self.words[frame as usize] = with_bit(self.words[frame as usize], flag);
    }

    /// Takes a flag away.
    pub fn take(&mut self, frame: u8, flag: u8)
        requires frame { frame < 8 }
        requires flag { flag < 128 }
        ensures { frame_bit self.new.words
            ≡ (λ (g k : ℕ). cond ((g == frame) && (k == flag)) false (frame_bit self.old.words g k)) }
    {
        self.words[frame as usize] = without_bit(self.words[frame as usize], flag);
    }

    /// Takes all flags of a frame away.
    pub fn clear(&mut self, frame: u8)
        requires { frame < 8 }
        ensures { frame_bit self.new.words ≡ (λ (g k : ℕ). cond (g == frame) false (frame_bit self.old.words g k)) }
    {
        self.words[frame as usize] = 0;
    }
}
