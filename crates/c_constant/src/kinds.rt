//! The types of operands and results.

ghost use Rattle.std.specs.Prelude.{◌≡◌, ◌<◌, ◌≤◌};
ghost use Rattle.c_constant.specs.Kinds as kinds;
ghost use Rattle.c_constant.specs.Operation as operations;

use c_tree::{BinaryOp, Kind, UnaryOp};

/// What an integer type is: how many bits it has, and whether it holds negative numbers.
#[derive(Clone, Copy, Debug, PartialEq, Eq)]
pub struct KindRow {
    pub bits: u32,
    pub signed: bool,
}

/// The table of the integer types (C17 6.2.5).
pub fn row(kind: Kind) -> KindRow
    ensures { result ≡ kinds.row kind }
{
    match kind {
        Kind::Char => KindRow {
            bits: 8,
            signed: true,
        },
        Kind::UChar => KindRow {
            bits: 8,
            signed: false,
        },
        Kind::Short => KindRow {
            bits: 16,
            signed: true,
        },
        Kind::UShort => KindRow {
            bits: 16,
            signed: false,
        },
        Kind::Int => KindRow {
            bits: 32,
            signed: true,
        },
        Kind::UInt => KindRow {
            bits: 32,
            signed: false,
        },
        Kind::Long => KindRow {
            bits: 64,
            signed: true,
        },
        Kind::ULong => KindRow {
            bits: 64,
            signed: false,
        },
        Kind::Bool => KindRow {
            bits: 1,
            signed: false,
        },
    }
}

/// How many bits a kind has.
pub fn width(kind: Kind) -> u64
    ensures { result ≡ kinds.width kind }
{
    row(kind).bits as u64
}

/// How many bytes a value of a kind takes.
pub fn bytes(kind: Kind) -> u32
    ensures value { result ≡ kinds.bytes kind }
    ensures some { 0 < result }
    ensures few { result ≤ 8 }
{
    (row(kind).bits + 7) / 8
}

/// The integer promotions (C17 6.3.1.1).
pub fn promoted(kind: Kind) -> Kind
    ensures { result ≡ kinds.promoted kind }
{
    if width(kind) < width(Kind::Int) {
        Kind::Int
    } else {
        kind
    }
}

/// The type of greater rank, and of two of one rank the unsigned one.
fn larger(a: Kind, b: Kind) -> Kind
    ensures { result ≡ kinds.larger a b }
{
    if width(a) < width(b) {
        b
    } else if width(b) < width(a) {
        a
    } else if row(a).signed {
        b
    } else {
        a
    }
}

/// The usual arithmetic conversions (C17 6.3.1.8).
pub fn common(a: Kind, b: Kind) -> Kind
    ensures { result ≡ kinds.common a b }
{
    larger(promoted(a), promoted(b))
}

/// The kind to which an operation converts its left operand, in which it is done.
pub fn left_at(op: BinaryOp, left: Kind, right: Kind) -> Kind
    ensures { result ≡ operations.left_at op left right }
{
    match op {
        BinaryOp::LogicalOr | BinaryOp::LogicalAnd => left,
        BinaryOp::ShiftLeft | BinaryOp::ShiftRight => promoted(left),
        _ => common(left, right),
    }
}

/// The kind to which an operation converts its right operand.
pub fn right_at(op: BinaryOp, left: Kind, right: Kind) -> Kind
    ensures { result ≡ operations.right_at op left right }
{
    match op {
        BinaryOp::LogicalOr | BinaryOp::LogicalAnd => right,
        BinaryOp::ShiftLeft | BinaryOp::ShiftRight => promoted(right),
        _ => common(left, right),
    }
}

/// The kind of the result of an operation that is done in a kind.
pub fn result_of(op: BinaryOp, at: Kind) -> Kind
    ensures { result ≡ operations.result_of op at }
{
    match op {
        BinaryOp::LogicalOr
        | BinaryOp::LogicalAnd
        | BinaryOp::Equal
        | BinaryOp::NotEqual
        | BinaryOp::Less
        | BinaryOp::Greater
        | BinaryOp::LessEqual
        | BinaryOp::GreaterEqual => Kind::Int,
        _ => at,
    }
}

/// The kind in which an operation on one operand is done.
pub fn unary_at(op: UnaryOp, kind: Kind) -> Kind
    ensures { result ≡ operations.unary_at op kind }
{
    match op {
        UnaryOp::Not => kind,
        _ => promoted(kind),
    }
}

/// The kind of the result of an operation on one operand that is done in a kind.
pub fn unary_result(op: UnaryOp, at: Kind) -> Kind
    ensures { result ≡ operations.unary_result op at }
{
    match op {
        UnaryOp::Not => Kind::Int,
        _ => at,
    }
}
