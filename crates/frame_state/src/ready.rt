//! Which slots are ready, 64 at a time.
ghost use Rattle.std.specs.Prelude.{◌≡◌, ◌&&◌, ◌||◌, ◌<◌, ℕ, not};
ghost use Rattle.base.specs.Rows.{has_bit};

/// The slots whose operand has come or is not wanted.
pub fn come(wanted: u64, came: u64) -> u64
    ensures { (s : ℕ) → s < 64 → has_bit result s ≡ (has_bit came s || not (has_bit wanted s)) }
{
    came | !wanted
}

/// The slots that have no predicate, or whose predicate has come as it is wanted.
pub fn matching(on_true: u64, on_false: u64, odd: u64, even: u64) -> u64
    ensures { (s : ℕ) → s < 64 → has_bit result s
        ≡ (not (has_bit on_true s || has_bit on_false s)
        || ((has_bit on_true s && has_bit odd s) || (has_bit on_false s && has_bit even s))) }
{
    let wanted = on_true | on_false;
    let matched = (on_true & odd) | (on_false & even);
    !wanted | matched
}

/// The slots that are there, have not fired, whose operands have come and whose predicate matches.
pub fn ready(waiting: u64, left: u64, right: u64, predicate: u64) -> u64
    ensures value { (s : ℕ) → s < 64 → has_bit result s
        ≡ ((has_bit waiting s && has_bit left s) && (has_bit right s && has_bit predicate s)) }
{
    (waiting & left) & (right & predicate)
}

/// The slots that are there and have not fired.
pub fn waiting(there: u64, fired: u64) -> u64
    ensures value { (s : ℕ) → s < 64 → has_bit result s ≡ (has_bit there s && not (has_bit fired s)) }
{
    there & !fired
}
