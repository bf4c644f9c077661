//! Sets of registers: bit r of a number says whether register r is in it.
ghost use Rattle.std.specs.Prelude.{◌≡◌, ◌<◌, IsTrue};
ghost use Rattle.hyper_trim.specs.inside.Sets as sets;
ghost use Rattle.hyper_trim.specs.inside.Sets.{Within};

use ir_forms::Source;

/// The set of one register.
pub fn bit(r: u8) -> u128
    ensures { result ≡ sets.bit r }
{
    if r < 128 { 1 << r } else { 0 }
}

/// What is in the first set and not in the second.
pub fn without(set: u128, other: u128) -> u128
    ensures { result ≡ sets.without set other }
{
    set ^ (set & other)
}

/// What an operand reads.
pub fn read_by(x: Source) -> u128
    ensures { result ≡ sets.read_by x }
{
    match x {
        Source::Const(_) => 0,
        Source::Reg(r) => bit(r),
    }
}

fn has(set: u128, r: u8) -> bool
    requires { r < 128 }
    ensures { result ≡ sets.seen set r }
{
    (set >> r) & 1 == 1
}

/// Whether a register counts, where a set is alive.
pub fn matters(set: u128, r: u8) -> bool
    ensures { result ≡ sets.matters set r }
{
    if r < 128 { has(set, r) } else { true }
}

/// Whether each member of the first is one of the second.
pub fn is_within(set: u128, other: u128) -> bool
    ensures { IsTrue result → Within set other }
{
    without(set, other) == 0
}
