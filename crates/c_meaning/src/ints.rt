//! Sums, differences and tests of ints, which need no jump by the type and by the operation.

ghost use Rattle.std.specs.Prelude.{◌≡◌};
ghost use Rattle.c_tree.specs.declared.BinaryOp.TheVariants.{Add, Subtract, Less};
ghost use Rattle.c_tree.specs.declared.Kind.TheVariants.{Int};
ghost use Rattle.c_constant.specs.Kinds.{in_kind, word_of};
ghost use Rattle.c_constant.specs.Operation.{operate};

use c_constant::operation;
use c_tree::{BinaryOp, Kind};

// The word of a number, where it is an int.
#[inline(always)]
fn in_int(z: i64) -> Option<u64>
    ensures { result ≡ word_of (in_kind Int z) }
{
    if -0x8000_0000 <= z && z <= 0x7fff_ffff {
        Some(z.cast_unsigned())
    } else {
        None
    }
}

// The sum.
#[tactic(auto, unfolding(c_constant::specs::Operation::operate))]
#[inline(always)]
fn sum(a: u64, b: u64) -> Option<u64>
    ensures { result ≡ operate Add Int a b }
{
    match a.cast_signed().checked_add(b.cast_signed()) {
        None => None,
        Some(z) => in_int(z),
    }
}

// The difference.
#[tactic(auto, unfolding(c_constant::specs::Operation::operate))]
#[inline(always)]
fn difference(a: u64, b: u64) -> Option<u64>
    ensures { result ≡ operate Subtract Int a b }
{
    match a.cast_signed().checked_sub(b.cast_signed()) {
        None => None,
        Some(z) => in_int(z),
    }
}

// Whether one is less than the other.
#[tactic(auto, unfolding(c_constant::specs::Operation::operate))]
#[inline(always)]
fn less(a: u64, b: u64) -> Option<u64>
    ensures { result ≡ operate Less Int a b }
{
    if a.cast_signed() < b.cast_signed() {
        Some(1)
    } else {
        Some(0)
    }
}

/// An operation on two words of ints.
#[inline(always)]
pub fn int_operation(op: BinaryOp, a: u64, b: u64) -> Option<u64>
    ensures { result ≡ operate op Int a b }
{
    match op {
        BinaryOp::Add => sum(a, b),
        BinaryOp::Subtract => difference(a, b),
        BinaryOp::Less => less(a, b),
        _ => operation(op, Kind::Int, a, b),
    }
}
