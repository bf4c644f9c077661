//! Words whose bits stand for slots.
ghost use Rattle.std.specs.Prelude.{◌≡◌, ◌-◌, ℕ, cond, nat_lt};
ghost use Rattle.operand_net.specs.Marks.{has_bit};

/// Two words of 64 bits as one.
pub fn joined(low: u64, high: u64) -> u128
    ensures { (s : ℕ) → has_bit result s ≡ cond (nat_lt s 64) (has_bit low s) (has_bit high (s - 64)) }
{
    high as u128 * 0x1_0000_0000_0000_0000 + low as u128
}
