ghost use Rattle.std.specs.Prelude.{◌≡◌};
ghost use Rattle.c_meaning_spec.specs.Word as words;

use crate::ints::int_operation;
use c_constant::{cause_of, convert, operation, promoted, unary};
use c_meaning_spec::Fault;
use c_tree::{BinaryOp, BumpOp, Kind, UnaryOp};

/// An operation on two words of a type.
#[inline(always)]
pub fn binary_of(op: BinaryOp, kind: Option<Kind>, a: u64, b: u64) -> Option<u64>
    ensures { result ≡ words.binary_of op kind a b }
{
    match kind {
        None => None,
        Some(Kind::Int) => int_operation(op, a, b),
        Some(kind) => operation(op, kind, a, b),
    }
}

/// An operation on one word of a type.
pub fn unary_of(op: UnaryOp, kind: Option<Kind>, a: u64) -> Option<u64>
    ensures { result ≡ words.unary_of op kind a }
{
    match kind {
        None => None,
        Some(kind) => unary(op, kind, a),
    }
}

// A word converted, if there is one.
#[inline(always)]
fn converted_if(kind: Kind, word: Option<u64>) -> Option<u64>
    ensures { result ≡ words.converted_if kind word }
{
    match word {
        None => None,
        Some(word) => Some(convert(kind, word)),
    }
}

/// A compound assignment's new value.
pub fn compound_of(op: BinaryOp, to: Option<Kind>, at: Kind, old: u64, b: u64) -> Option<u64>
    ensures { result ≡ words.compound_of op to at old b }
{
    match to {
        None => None,
        Some(to) => converted_if(to, operation(op, at, convert(at, old), b)),
    }
}

// The operation of `++` and `--`.
fn bump_operation(op: BumpOp) -> BinaryOp
    ensures { result ≡ words.bump_operation op }
{
    match op {
        BumpOp::PreInc | BumpOp::PostInc => BinaryOp::Add,
        BumpOp::PreDec | BumpOp::PostDec => BinaryOp::Subtract,
    }
}

/// What `++` or `--` stores.
#[inline(always)]
pub fn bump_of(op: BumpOp, kind: Option<Kind>, old: u64) -> Option<u64>
    ensures { result ≡ words.bump_of op kind old }
{
    match kind {
        None => None,
        Some(kind) => converted_if(kind, operation(bump_operation(op), promoted(kind), old, 1)),
    }
}

/// What `++` or `--` gives.
#[inline(always)]
pub fn bump_value(op: BumpOp, old: u64, new: u64) -> u64
    ensures { result ≡ words.bump_value op old new }
{
    match op {
        BumpOp::PreInc | BumpOp::PreDec => new,
        BumpOp::PostInc | BumpOp::PostDec => old,
    }
}

// Why an operation on two words has no value.
#[tactic(auto, unfolding(c_meaning_spec::specs::Word::words_fault))]
fn words_fault(op: BinaryOp, kind: Kind, a: u64, b: u64) -> Fault
    ensures { result ≡ words.words_fault op kind a b }
{
    match cause_of(op, kind, a, b) {
        None => Fault::IllFormed,
        Some(cause) => Fault::Binary(cause, op, kind, a, b),
    }
}

/// Why an operation at a kind on two words has no value.
pub fn binary_fault(op: BinaryOp, kind: Option<Kind>, a: u64, b: u64) -> Fault
    ensures { result ≡ words.binary_fault op kind a b }
{
    match kind {
        None => Fault::IllFormed,
        Some(kind) => words_fault(op, kind, a, b),
    }
}

/// The same of an operation on one word.
pub fn unary_fault(op: UnaryOp, kind: Option<Kind>, a: u64) -> Fault
    ensures { result ≡ words.unary_fault op kind a }
{
    match kind {
        None => Fault::IllFormed,
        Some(kind) => Fault::Unary(op, kind, a),
    }
}

/// The same of a compound assignment.
pub fn compound_fault(op: BinaryOp, to: Option<Kind>, at: Kind, old: u64, b: u64) -> Fault
    ensures { result ≡ words.compound_fault op to at old b }
{
    match to {
        None => Fault::IllFormed,
        Some(_) => words_fault(op, at, convert(at, old), b),
    }
}

/// The same of `++` and `--`.
pub fn bump_fault(op: BumpOp, kind: Option<Kind>, old: u64) -> Fault
    ensures { result ≡ words.bump_fault op kind old }
{
    match kind {
        None => Fault::IllFormed,
        Some(kind) => words_fault(bump_operation(op), promoted(kind), old, 1),
    }
}
