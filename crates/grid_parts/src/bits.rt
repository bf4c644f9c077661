//! The bits of a word, one after another.
ghost use Rattle.std.specs.Prelude.{◌≡◌, ◌<◌, ℕ, false};
ghost use Rattle.operand_net.specs.Marks.{has_bit};
ghost use Rattle.operand_net.specs.inside.Marks.{IsLowestBit};

/// The bits of 32 numbers.
const LOW_32: u128 = 0xFFFF_FFFF;

/// The lowest bit of a word that is 1, from a bit on; 64 where there is none.
pub fn lowest_bit(word: u64, from: u8) -> u8
    requires { from < 64 }
    ensures { IsLowestBit word from result }
{
    let rest = word >> from;
    if rest == 0 {
        64
    } else {
        from + rest.trailing_zeros() as u8
    }
}

/// The bits of 32 numbers of a longer word.
pub fn low_bits(word: u128) -> u64
    ensures { (i : ℕ) → i < 32 → has_bit result i ≡ has_bit word i }
{
    (word & LOW_32) as u64
}

/// The word with one bit more, where that is told.
pub fn with_bit(word: u64, bit: u8, on: bool) -> u64
    requires { bit < 64 }
    ensures other { (i : ℕ) → has_bit result i ≡ false → has_bit word i ≡ false }
    ensures set { has_bit result bit ≡ false → on ≡ false }
{
    if on { word | (1 << bit) } else { word }
}
