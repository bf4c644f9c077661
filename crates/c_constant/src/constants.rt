//! Constant expressions.

ghost use Rattle.std.specs.Prelude.{◌≡◌, codes, nat_eq};
ghost use Rattle.std.specs.Cmp.Lexicographic.{pointwise};
ghost use Rattle.c_constant.specs.Kinds as kinds;
ghost use Rattle.c_constant.specs.Operation as operations;
ghost use Rattle.c_constant.specs.Constant as values;

use crate::kinds::{common, left_at, promoted, result_of, right_at, unary_at, unary_result};
use crate::words::{convert, operation, unary};
use c_tree::{BinaryOp, Expr, ExprNode, Kind, UnaryOp, Word};

/// The kind of a constant expression and its value, none where it is undefined or no constant.
#[derive(Clone, Copy, Debug, PartialEq, Eq)]
pub struct Constant {
    pub kind: Kind,
    pub value: Option<u64>,
}

// What `EOF` stands for: -1.
const END: Constant = Constant {
    kind: Kind::Int,
    value: Some(u64::MAX),
};

// What is no constant.
const NONE: Constant = Constant {
    kind: Kind::Int,
    value: None,
};

// The value after a cast, where there is one.
fn cast_value(kind: Kind, value: Option<u64>) -> Option<u64>
    ensures { result ≡ values.cast_value kind value }
{
    match value {
        None => None,
        Some(word) => Some(convert(kind, word)),
    }
}

// The value of an operation on one operand.
fn one_value(op: UnaryOp, kind: Kind, value: Option<u64>) -> Option<u64>
    ensures { result ≡ values.one_value op kind value }
{
    match value {
        None => None,
        Some(word) => {
            let at = unary_at(op, kind);
            unary(op, at, convert(at, word))
        }
    }
}

// The answer of a test of a word.
fn tested(word: u64) -> u64
    ensures { result ≡ values.tested word }
{
    if word == 0 { 0 } else { 1 }
}

// The answer of a test, where there is a word.
fn tested_if(value: Option<u64>) -> Option<u64>
    ensures { result ≡ values.tested_if value }
{
    match value {
        None => None,
        Some(word) => Some(tested(word)),
    }
}

// The value of `&&`: the right side need have none where the left one is zero.
fn and_value(left: Option<u64>, right: Option<u64>) -> Option<u64>
    ensures { result ≡ values.and_value left right }
{
    match left {
        None => None,
        Some(word) => if word == 0 { Some(0) } else { tested_if(right) },
    }
}

// The value of `||`: the right side need have none where the left one is not zero.
fn or_value(left: Option<u64>, right: Option<u64>) -> Option<u64>
    ensures { result ≡ values.or_value left right }
{
    match left {
        None => None,
        Some(word) => if word == 0 { tested_if(right) } else { Some(1) },
    }
}

// The value of an operation that takes both operands.
fn two_value(op: BinaryOp, j: Kind, k: Kind, left: Option<u64>, right: Option<u64>) -> Option<u64>
    ensures { result ≡ values.two_value op j k left right }
{
    let Some(x) = left else {
        return None;
    };
    let Some(y) = right else {
        return None;
    };
    let at = left_at(op, j, k);
    operation(op, at, convert(at, x), convert(right_at(op, j, k), y))
}

// The value of an operation on two operands.
fn binary_value(
    op: BinaryOp,
    j: Kind,
    k: Kind,
    left: Option<u64>,
    right: Option<u64>,
) -> Option<u64>
    ensures { result ≡ values.binary_value op j k left right }
{
    match op {
        BinaryOp::LogicalAnd => and_value(left, right),
        BinaryOp::LogicalOr => or_value(left, right),
        _ => two_value(op, j, k, left, right),
    }
}

// The value of the leg that is chosen, in the common kind of both.
fn choice_value(kind: Kind, test: Option<u64>, yes: Option<u64>, no: Option<u64>) -> Option<u64>
    ensures { result ≡ values.choice_value kind test yes no }
{
    match test {
        None => None,
        Some(word) => if word == 0 {
            cast_value(kind, no)
        } else {
            cast_value(kind, yes)
        },
    }
}

// An operation on one operand.
fn one(op: UnaryOp, e: Constant) -> Constant
    ensures { result ≡ values.given (operations.unary_result op (operations.unary_at op e.kind))
        (values.one_value op e.kind e.value) }
{
    Constant {
        kind: unary_result(op, unary_at(op, e.kind)),
        value: one_value(op, e.kind, e.value),
    }
}

// An operation on two operands.
fn two(op: BinaryOp, left: Constant, right: Constant) -> Constant
    ensures { result ≡ values.given (operations.result_of op
        (operations.left_at op left.kind right.kind)) (values.binary_value op left.kind right.kind
        left.value right.value) }
{
    Constant {
        kind: result_of(op, left_at(op, left.kind, right.kind)),
        value: binary_value(op, left.kind, right.kind, left.value, right.value),
    }
}

// A choice.
fn three(test: Constant, yes: Constant, no: Constant) -> Constant
    ensures { result ≡ values.given (kinds.common yes.kind no.kind)
        (values.choice_value (kinds.common yes.kind no.kind) test.value yes.value no.value) }
{
    let kind = common(yes.kind, no.kind);
    Constant {
        kind,
        value: choice_value(kind, test.value, yes.value, no.value),
    }
}

// Whether a name is `EOF`.
fn is_end(word: &[u8]) -> bool
    ensures { result ≡ pointwise nat_eq (codes "EOF") word.now }
{
    b"EOF".as_slice() == word
}

// What a name stands for.
fn named(word: &Word) -> Constant
    ensures { result ≡ values.named values.ends word.now }
{
    if is_end(word.as_slice()) { END } else { NONE }
}

/// The value of a constant expression (C17 6.6) in which `EOF` stands for -1, none where it is undefined
/// or no constant.
#[tactic(auto, using(crate::proofs::Nodes::values))]
pub fn constant_of(e: &Expr) -> Constant
    ensures { result ≡ values.constant values.ends e.now }
{
    match &e.node {
        ExprNode::Number { value, kind } => Constant {
            kind: *kind,
            value: Some(*value),
        },
        ExprNode::Group(e) => constant_of(e.get()),
        ExprNode::Unary { op, e } => one(*op, constant_of(e.get())),
        ExprNode::Cast { to, e } => Constant {
            kind: *to,
            value: cast_value(*to, constant_of(e.get()).value),
        },
        ExprNode::Binary { op, left, right } => two(
            *op,
            constant_of(left.get()),
            constant_of(right.get()),
        ),
        ExprNode::Choice { test, yes, no } => three(
            constant_of(test.get()),
            constant_of(yes.get()),
            constant_of(no.get()),
        ),
        ExprNode::Name(word) => named(word),
        ExprNode::Element { .. } => NONE,
        ExprNode::Call { .. } => NONE,
        ExprNode::Bump { .. } => NONE,
        ExprNode::Assign { .. } => NONE,
        ExprNode::Comma { .. } => NONE,
    }
}
