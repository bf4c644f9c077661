//! Self loops.

ghost use Rattle.std.specs.Prelude.{◌≡◌};
ghost use Rattle.ir_forms.specs.inside.HyperViews.{tail_of};
ghost use Rattle.loop_unroll.specs.inside.Unrolled.{jumps_to, loop_between, loop_by, loop_of};

use ir_forms::{Exit, Source, Tail};

/// The test of a self loop, and which of its legs jumps back; it leaves by the other.
#[derive(Clone, Copy, Debug, PartialEq, Eq)]
pub struct Loop {
    pub test: Source,
    /// whether it is the first
    pub way: bool,
}

/// Whether an exit jumps to a block.
fn jumps_to(number: u32, exit: Exit) -> bool
    ensures { result ≡ jumps_to number exit }
{
    match exit {
        Exit::Jump(label) => label == number,
        _ => false,
    }
}

/// A loop, where one leg alone jumps back.
fn loop_by(test: Source, one: bool, other: bool) -> Option<Loop>
    ensures { result ≡ loop_by test one other }
{
    if one {
        if other {
            None
        } else {
            Some(Loop { test, way: true })
        }
    } else if other {
        Some(Loop { test, way: false })
    } else {
        None
    }
}

/// The loop of a block with two tails behind one test.
fn loop_between(number: u32, test: Source, one: &Tail, other: &Tail) -> Option<Loop>
    ensures { result ≡ loop_between number test (tail_of one.now) (tail_of other.now) }
{
    match one {
        Tail::Leave(one) => match other {
            Tail::Leave(other) => loop_by(test, jumps_to(number, *one), jumps_to(number, *other)),
            Tail::Test { .. } => None,
        },
        Tail::Test { .. } => None,
    }
}

/// The loop of a block by its end, where that makes it a self loop: one test with one leg that jumps to the block
/// itself and one that leaves by another exit.
pub fn loop_of(number: u32, tail: &Tail) -> Option<Loop>
    ensures { result ≡ loop_of number (tail_of tail.now) }
{
    match tail {
        Tail::Leave(_) => None,
        Tail::Test { test, yes, no } => loop_between(number, *test, yes.get(), no.get()),
    }
}
