//! Operations at the signed kinds.

ghost use Rattle.std.specs.Prelude.{◌≡◌, ◌<◌, ◌+◌, ◌*◌, ◌^◌, ◌+ℤ◌, ◌-ℤ◌, ◌*ℤ◌, int_lt, int_div};
ghost use Rattle.std.specs.Prelude.{int_rem, pos, negsuc, IsTrue};
ghost use Rattle.c_constant.specs.Kinds.{in_kind, is_signed, word_of};
ghost use Rattle.c_constant.specs.Kinds as kinds;
ghost use Rattle.c_constant.specs.Operation.{c_operation, c_unary, quotient, remainder, answer};
ghost use Rattle.c_constant.specs.Operation.{shifted_left, shifted_right};

use crate::kinds::width;
use c_tree::{BinaryOp, Kind, UnaryOp};

/// The low bits of a word, read by sign.
pub fn by_sign(half: u64, low: u64) -> u64
    requires size { half < 2 ^ 63 }
    requires below { low < half + half }
    ensures { result ≡ kinds.by_sign half low }
{
    if low < half {
        low
    } else {
        low + (u64::MAX - (half + half) + 1)
    }
}

// The word of a number from the least to the greatest.
fn within(least: i64, greatest: i64, z: i64) -> Option<u64>
    ensures { result ≡ word_of (kinds.between least greatest z) }
{
    if least <= z && z <= greatest {
        Some(z.cast_unsigned())
    } else {
        None
    }
}

// The word of a number, where the kind holds it.
fn in_signed(kind: Kind, z: i64) -> Option<u64>
    requires { IsTrue (is_signed kind) }
    ensures { result ≡ word_of (in_kind kind z) }
{
    match kind {
        Kind::Char => within(-0x80, 0x7f, z),
        Kind::Short => within(-0x8000, 0x7fff, z),
        Kind::Int => within(-0x8000_0000, 0x7fff_ffff, z),
        _ => Some(z.cast_unsigned()),
    }
}

/// The word of a test's answer.
pub fn truth(holds: bool) -> Option<u64>
    ensures { result ≡ word_of (answer holds) }
{
    if holds { Some(1) } else { Some(0) }
}

// The sum, where the kind holds it.
fn add(kind: Kind, a: i64, b: i64) -> Option<u64>
    requires { IsTrue (is_signed kind) }
    ensures { result ≡ word_of (in_kind kind (a +ℤ b)) }
{
    match a.checked_add(b) {
        None => None,
        Some(z) => in_signed(kind, z),
    }
}

// The difference, where the kind holds it.
fn sub(kind: Kind, a: i64, b: i64) -> Option<u64>
    requires { IsTrue (is_signed kind) }
    ensures { result ≡ word_of (in_kind kind (a -ℤ b)) }
{
    match a.checked_sub(b) {
        None => None,
        Some(z) => in_signed(kind, z),
    }
}

// The product, where the kind holds it.
fn mul(kind: Kind, a: i64, b: i64) -> Option<u64>
    requires { IsTrue (is_signed kind) }
    ensures { result ≡ word_of (in_kind kind (a *ℤ b)) }
{
    match a.checked_mul(b) {
        None => None,
        Some(z) => in_signed(kind, z),
    }
}

// The quotient, rounded toward zero (C17 6.5.5).
fn div(kind: Kind, a: i64, b: i64) -> Option<u64>
    requires { IsTrue (is_signed kind) }
    ensures { result ≡ word_of (quotient kind a b) }
{
    if b == 0 {
        return None;
    }
    match a.checked_div(b) {
        None => None,
        Some(z) => in_signed(kind, z),
    }
}

// The remainder, which is defined where the quotient is (C17 6.5.5).
fn rem(kind: Kind, a: i64, b: i64) -> Option<u64>
    requires { IsTrue (is_signed kind) }
    ensures { result ≡ word_of (remainder kind a b) }
{
    if b == 0 {
        return None;
    }
    match a.checked_rem(b) {
        None => None,
        Some(z) => match div(kind, a, b) {
            None => None,
            Some(_) => Some(z.cast_unsigned()),
        },
    }
}

// A product with 2^count, of a number that is not negative.
fn doubled(kind: Kind, a: u64, count: u64) -> Option<u64>
    requires signed { IsTrue (is_signed kind) }
    requires count { count < 64 }
    ensures { result ≡ word_of (in_kind kind (pos (a * 2 ^ count))) }
{
    if a > 0x7fff_ffff_ffff_ffff >> count {
        return None;
    }
    let product = a << count;
    in_signed(kind, product.cast_signed())
}

// A left shift (C17 6.5.7).
fn shift_left(kind: Kind, a: i64, b: i64) -> Option<u64>
    requires { IsTrue (is_signed kind) }
    ensures { result ≡ word_of (shifted_left kind a b) }
{
    if a < 0 || b < 0 || b >= width(kind).cast_signed() {
        None
    } else {
        doubled(kind, a.cast_unsigned(), b.cast_unsigned())
    }
}

// A right shift, rounded down (C17 6.5.7).
fn shift_right(kind: Kind, a: i64, b: i64) -> Option<u64>
    ensures { result ≡ word_of (shifted_right kind a b) }
{
    if b < 0 || b >= width(kind).cast_signed() {
        None
    } else {
        Some((a >> b).cast_unsigned())
    }
}

/// An operation on two numbers of a signed kind (C17 6.5).
pub fn signed_operation(op: BinaryOp, kind: Kind, a: i64, b: i64) -> Option<u64>
    requires { IsTrue (is_signed kind) }
    ensures { result ≡ word_of (c_operation op kind a b) }
{
    match op {
        BinaryOp::LogicalOr => truth(a != 0 || b != 0),
        BinaryOp::LogicalAnd => truth(a != 0 && b != 0),
        BinaryOp::BitOr => Some((a | b).cast_unsigned()),
        BinaryOp::BitXor => Some((a ^ b).cast_unsigned()),
        BinaryOp::BitAnd => Some((a & b).cast_unsigned()),
        BinaryOp::Equal => truth(a == b),
        BinaryOp::NotEqual => truth(a != b),
        BinaryOp::Less => truth(a < b),
        BinaryOp::Greater => truth(a > b),
        BinaryOp::LessEqual => truth(a <= b),
        BinaryOp::GreaterEqual => truth(a >= b),
        BinaryOp::ShiftLeft => shift_left(kind, a, b),
        BinaryOp::ShiftRight => shift_right(kind, a, b),
        BinaryOp::Add => add(kind, a, b),
        BinaryOp::Subtract => sub(kind, a, b),
        BinaryOp::Multiply => mul(kind, a, b),
        BinaryOp::Divide => div(kind, a, b),
        BinaryOp::Remainder => rem(kind, a, b),
    }
}

/// An operation on one number of a signed kind (C17 6.5.3.3).
pub fn signed_unary(op: UnaryOp, kind: Kind, a: i64) -> Option<u64>
    requires { IsTrue (is_signed kind) }
    ensures { result ≡ word_of (c_unary op kind a) }
{
    match op {
        UnaryOp::Plus => Some(a.cast_unsigned()),
        UnaryOp::Minus => sub(kind, 0, a),
        UnaryOp::Complement => sub(kind, -1, a),
        UnaryOp::Not => truth(a == 0),
    }
}
