//! Why an operation is undefined.

ghost use Rattle.std.specs.Prelude.{◌≡◌, ℤ, Option, None, pos, is_none, is_some, IsTrue, not};
ghost use Rattle.c_constant.specs.Causes as causes;
ghost use Rattle.c_constant.specs.Kinds.{is_signed, number, word_of};
ghost use Rattle.c_constant.specs.Operation.{operate};

use crate::kinds::width;
use crate::signed::signed_operation;
use crate::unsigned::unsigned_operation;
use c_tree::{BinaryOp, Kind};

/// Why an operation on two numbers of a type is undefined (C17 6.5).
#[derive(Clone, Copy, Debug, PartialEq, Eq)]
pub enum Cause {
    /// The result is no number of its type (6.5, paragraph 5; of `<<` 6.5.7, paragraph 4).
    Overflow,
    /// The right operand of `/` or `%` is zero (6.5.5, paragraph 5).
    ZeroDivisor,
    /// The count of a shift is negative, or at least the number of the left operand's bits (6.5.7, paragraph 3).
    Count,
    /// The left operand of `<<` is negative (6.5.7, paragraph 4).
    NegativeLeft,
}

// Whether a result fits.
fn unfit(word: Option<u64>) -> Option<Cause>
    ensures { (z : Option ℤ) → word ≡ word_of z → result ≡ causes.unfit z }
{
    match word {
        None => Some(Cause::Overflow),
        Some(_) => None,
    }
}

// What is wrong with a division at a signed kind.
fn divided_signed(kind: Kind, a: i64, b: i64) -> Option<Cause>
    requires { IsTrue (is_signed kind) }
    ensures { result ≡ causes.divided kind a b }
{
    if b == 0 {
        Some(Cause::ZeroDivisor)
    } else {
        unfit(signed_operation(BinaryOp::Divide, kind, a, b))
    }
}

// What is wrong with a shift to the left at a signed kind.
fn doubled_signed(kind: Kind, a: i64, b: i64) -> Option<Cause>
    requires { IsTrue (is_signed kind) }
    ensures { result ≡ causes.counted kind b (causes.doubled kind a b) }
{
    if b < 0 || b >= width(kind).cast_signed() {
        Some(Cause::Count)
    } else if a < 0 {
        Some(Cause::NegativeLeft)
    } else {
        unfit(signed_operation(BinaryOp::ShiftLeft, kind, a, b))
    }
}

// What is wrong with a shift to the right at a signed kind.
fn halved_signed(kind: Kind, b: i64) -> Option<Cause>
    ensures { result ≡ causes.counted kind b None }
{
    if b < 0 || b >= width(kind).cast_signed() {
        Some(Cause::Count)
    } else {
        None
    }
}

// Why an operation on two numbers of a signed kind is undefined.
fn signed_cause(op: BinaryOp, kind: Kind, a: i64, b: i64) -> Option<Cause>
    requires { IsTrue (is_signed kind) }
    ensures { result ≡ causes.cause_of op kind a b }
{
    match op {
        BinaryOp::Add => unfit(signed_operation(BinaryOp::Add, kind, a, b)),
        BinaryOp::Subtract => unfit(signed_operation(BinaryOp::Subtract, kind, a, b)),
        BinaryOp::Multiply => unfit(signed_operation(BinaryOp::Multiply, kind, a, b)),
        BinaryOp::Divide => divided_signed(kind, a, b),
        BinaryOp::Remainder => divided_signed(kind, a, b),
        BinaryOp::ShiftLeft => doubled_signed(kind, a, b),
        BinaryOp::ShiftRight => halved_signed(kind, b),
        _ => None,
    }
}

// What is wrong with a division at an unsigned kind.
fn divided_unsigned(kind: Kind, a: u64, b: u64) -> Option<Cause>
    requires { IsTrue (not (is_signed kind)) }
    ensures { result ≡ causes.divided kind (pos a) (pos b) }
{
    if b == 0 {
        Some(Cause::ZeroDivisor)
    } else {
        unfit(unsigned_operation(BinaryOp::Divide, kind, a, b))
    }
}

// What is wrong with a shift to the left at an unsigned kind.
fn doubled_unsigned(kind: Kind, a: u64, b: u64) -> Option<Cause>
    requires { IsTrue (not (is_signed kind)) }
    ensures { result ≡ causes.counted kind (pos b) (causes.doubled kind (pos a) (pos b)) }
{
    if b >= width(kind) {
        Some(Cause::Count)
    } else {
        unfit(unsigned_operation(BinaryOp::ShiftLeft, kind, a, b))
    }
}

// What is wrong with a shift to the right at an unsigned kind.
fn halved_unsigned(kind: Kind, b: u64) -> Option<Cause>
    ensures { result ≡ causes.counted kind (pos b) None }
{
    if b >= width(kind) {
        Some(Cause::Count)
    } else {
        None
    }
}

// Why an operation on two numbers of an unsigned kind is undefined.
fn unsigned_cause(op: BinaryOp, kind: Kind, a: u64, b: u64) -> Option<Cause>
    requires { IsTrue (not (is_signed kind)) }
    ensures { result ≡ causes.cause_of op kind (pos a) (pos b) }
{
    match op {
        BinaryOp::Add => unfit(unsigned_operation(BinaryOp::Add, kind, a, b)),
        BinaryOp::Subtract => unfit(unsigned_operation(BinaryOp::Subtract, kind, a, b)),
        BinaryOp::Multiply => unfit(unsigned_operation(BinaryOp::Multiply, kind, a, b)),
        BinaryOp::Divide => divided_unsigned(kind, a, b),
        BinaryOp::Remainder => divided_unsigned(kind, a, b),
        BinaryOp::ShiftLeft => doubled_unsigned(kind, a, b),
        BinaryOp::ShiftRight => halved_unsigned(kind, b),
        _ => None,
    }
}

// Why an operation on two words of a kind is undefined.
fn broken(op: BinaryOp, kind: Kind, a: u64, b: u64) -> Option<Cause>
    ensures { result ≡ causes.cause_of op kind (number kind a) (number kind b) }
{
    match kind {
        Kind::Char | Kind::Short | Kind::Int | Kind::Long => {
            signed_cause(op, kind, a.cast_signed(), b.cast_signed())
        }
        Kind::UChar | Kind::UShort | Kind::UInt | Kind::ULong | Kind::Bool => {
            unsigned_cause(op, kind, a, b)
        }
    }
}

/// Why an operation on two words of a kind is undefined, or none where it is defined.
#[tactic(auto, using(crate::proofs::CauseFacts::undefined_words))]
pub fn cause_of(op: BinaryOp, kind: Kind, a: u64, b: u64) -> Option<Cause>
    ensures why { result ≡ causes.cause_of op kind (number kind a) (number kind b) }
    ensures undefined { is_some result ≡ is_none (operate op kind a b) }
{
    broken(op, kind, a, b)
}
