//! Operations at the unsigned kinds.

ghost use Rattle.std.specs.Prelude.{◌≡◌, ◌<◌, ◌*◌, ◌^◌, ◌+ℤ◌, ◌-ℤ◌, ◌*ℤ◌, pos, IsTrue, not, ℤ};
ghost use Rattle.c_constant.specs.Kinds.{in_kind, is_signed, word_of, reduced};
ghost use Rattle.c_constant.specs.Operation.{c_operation, c_unary, quotient, remainder};
ghost use Rattle.c_constant.specs.Operation.{shifted_left, shifted_right};

use crate::kinds::width;
use crate::signed::truth;
use c_tree::{BinaryOp, Kind, UnaryOp};

// A number modulo 2^64, as the kind has it.
fn in_unsigned(kind: Kind, word: u64) -> Option<u64>
    requires { IsTrue (not (is_signed kind)) }
    ensures { (z : ℤ) → word ≡ reduced 18446744073709551616 z → result ≡ word_of (in_kind kind z) }
{
    match kind {
        Kind::UChar => Some(word % 0x100),
        Kind::UShort => Some(word % 0x1_0000),
        Kind::UInt => Some(word % 0x1_0000_0000),
        Kind::Bool => Some(word % 2),
        _ => Some(word),
    }
}

// The sum modulo 2^64.
fn sum(a: u64, b: u64) -> u64
    ensures { result ≡ reduced 18446744073709551616 (pos a +ℤ pos b) }
{
    a.wrapping_add(b)
}

// The difference modulo 2^64.
fn difference(a: u64, b: u64) -> u64
    ensures { result ≡ reduced 18446744073709551616 (pos a -ℤ pos b) }
{
    a.wrapping_sub(b)
}

// The product modulo 2^64.
fn product(a: u64, b: u64) -> u64
    ensures { result ≡ reduced 18446744073709551616 (pos a *ℤ pos b) }
{
    a.wrapping_mul(b)
}

// The quotient (C17 6.5.5).
fn div(kind: Kind, a: u64, b: u64) -> Option<u64>
    requires { IsTrue (not (is_signed kind)) }
    ensures { result ≡ word_of (quotient kind (pos a) (pos b)) }
{
    if b == 0 {
        None
    } else {
        in_unsigned(kind, a / b)
    }
}

// The remainder (C17 6.5.5).
fn rem(kind: Kind, a: u64, b: u64) -> Option<u64>
    requires { IsTrue (not (is_signed kind)) }
    ensures { result ≡ word_of (remainder kind (pos a) (pos b)) }
{
    if b == 0 { None } else { Some(a % b) }
}

// A left shift (C17 6.5.7).
fn shift_left(kind: Kind, a: u64, b: u64) -> Option<u64>
    requires { IsTrue (not (is_signed kind)) }
    ensures { result ≡ word_of (shifted_left kind (pos a) (pos b)) }
{
    if b >= width(kind) {
        return None;
    }
    in_unsigned(kind, a << b)
}

// A right shift (C17 6.5.7).
fn shift_right(kind: Kind, a: u64, b: u64) -> Option<u64>
    ensures { result ≡ word_of (shifted_right kind (pos a) (pos b)) }
{
    if b < width(kind) { Some(a >> b) } else { None }
}

/// An operation on two words of an unsigned kind (C17 6.5).
pub fn unsigned_operation(op: BinaryOp, kind: Kind, a: u64, b: u64) -> Option<u64>
    requires { IsTrue (not (is_signed kind)) }
    ensures { result ≡ word_of (c_operation op kind (pos a) (pos b)) }
{
    match op {
        BinaryOp::LogicalOr => truth(a != 0 || b != 0),
        BinaryOp::LogicalAnd => truth(a != 0 && b != 0),
        BinaryOp::BitOr => Some(a | b),
        BinaryOp::BitXor => Some(a ^ b),
        BinaryOp::BitAnd => Some(a & b),
        BinaryOp::Equal => truth(a == b),
        BinaryOp::NotEqual => truth(a != b),
        BinaryOp::Less => truth(a < b),
        BinaryOp::Greater => truth(a > b),
        BinaryOp::LessEqual => truth(a <= b),
        BinaryOp::GreaterEqual => truth(a >= b),
        BinaryOp::ShiftLeft => shift_left(kind, a, b),
        BinaryOp::ShiftRight => shift_right(kind, a, b),
        BinaryOp::Add => in_unsigned(kind, sum(a, b)),
        BinaryOp::Subtract => in_unsigned(kind, difference(a, b)),
        BinaryOp::Multiply => in_unsigned(kind, product(a, b)),
        BinaryOp::Divide => div(kind, a, b),
        BinaryOp::Remainder => rem(kind, a, b),
    }
}

/// An operation on one word of an unsigned kind (C17 6.5.3.3).
pub fn unsigned_unary(op: UnaryOp, kind: Kind, a: u64) -> Option<u64>
    requires { IsTrue (not (is_signed kind)) }
    ensures { result ≡ word_of (c_unary op kind (pos a)) }
{
    match op {
        UnaryOp::Plus => Some(a),
        UnaryOp::Minus => in_unsigned(kind, difference(0, a)),
        UnaryOp::Complement => in_unsigned(kind, u64::MAX - a),
        UnaryOp::Not => truth(a == 0),
    }
}
