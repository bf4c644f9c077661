//! Words whose bits stand for numbers.
ghost use Rattle.std.specs.Prelude.{◌≡◌, ◌≢◌, ◌<◌, ◌≤◌, ◌||◌, ℕ, suc, false};
ghost use Rattle.base.specs.Rows.{has_bit};

/// A word of 32 bits with the bit of a number, where it is to be set.
pub fn with_bit(word: u32, number: u8, set: bool) -> u32
    requires { number < 32 }
    ensures same { (k : ℕ) → k ≢ number → has_bit result k ≡ has_bit word k }
    ensures here { has_bit result number ≡ (has_bit word number || set) }
{
    if set { word | 1 << number } else { word }
}

/// A word of 128 bits with the bit of a number, where it is to be set.
pub fn with_wide_bit(word: u128, number: u8, set: bool) -> u128
    requires { number < 128 }
    ensures same { (k : ℕ) → k ≢ number → has_bit result k ≡ has_bit word k }
    ensures here { has_bit result number ≡ (has_bit word number || set) }
{
    if set { word | 1 << number } else { word }
}

/// A word without the bits from a number on.
pub fn low_part(word: u32, count: u8) -> u32
    requires { count < 32 }
    ensures same { (k : ℕ) → k < count → has_bit result k ≡ has_bit word k }
    ensures clear { (k : ℕ) → count ≤ k → has_bit result k ≡ false }
{
    word % (1 << count)
}

/// A word without its lowest bit, in which each other bit stands for one number less.
pub fn led_down(word: u32) -> u32
    ensures { (k : ℕ) → has_bit result k ≡ has_bit word (suc k) }
{
    word >> 1
}
