//! The sentence that tells why an evaluation is undefined.

ghost use Rattle.std.specs.Prelude.{◌≡◌, ◌++◌, codes, IfOk, string_bytes};
ghost use Rattle.c_tree.specs.declared.token.Kind.TheVariants as Kind;
ghost use Rattle.c_meaning_spec.specs.declared.fault.Fault.TheVariants as Fault;
ghost use Rattle.trips_eval_answers.specs.Faults as faults;

use c_constant::Cause;
use c_meaning_spec::Fault;
use c_tree::{BinaryOp, Kind, UnaryOp};
use std::alloc::{AllocError, Global};

// A type's name.
fn kind_name(kind: Kind) -> &'static str
    ensures { result.now ≡ faults.kind_name kind }
{
    match kind {
        Kind::Char => "char",
        Kind::UChar => "unsigned char",
        Kind::Short => "short",
        Kind::UShort => "unsigned short",
        Kind::Int => "int",
        Kind::UInt => "unsigned int",
        Kind::Long => "long",
        Kind::ULong => "unsigned long",
        Kind::Bool => "_Bool",
    }
}

// What an operation gives.
fn result_name(op: BinaryOp) -> &'static str
    ensures { result.now ≡ faults.result_name op }
{
    match op {
        BinaryOp::Add => "sum",
        BinaryOp::Subtract => "difference",
        BinaryOp::Multiply => "product",
        BinaryOp::Divide => "quotient",
        BinaryOp::Remainder => "remainder",
        BinaryOp::ShiftLeft => "shift",
        BinaryOp::ShiftRight => "shift",
        _ => "result",
    }
}

// The sign between the operands.
fn sign(op: BinaryOp) -> &'static str
    ensures { result.now ≡ faults.sign op }
{
    match op {
        BinaryOp::Add => "+",
        BinaryOp::Subtract => "-",
        BinaryOp::Multiply => "*",
        BinaryOp::Divide => "/",
        BinaryOp::Remainder => "%",
        BinaryOp::ShiftLeft => "<<",
        BinaryOp::ShiftRight => ">>",
        _ => ",",
    }
}

// The type at which the right operand is told.
fn right_kind(op: BinaryOp, kind: Kind) -> Kind
    ensures { result ≡ faults.right_kind op kind }
{
    match op {
        BinaryOp::ShiftLeft => Kind::Long,
        BinaryOp::ShiftRight => Kind::Long,
        _ => kind,
    }
}

// The rule that an operation breaks, before its type's name.
fn rule_words(cause: Cause, op: BinaryOp) -> &'static str
    ensures { result.now ≡ faults.rule_words cause op }
{
    match cause {
        Cause::Overflow => match op {
            BinaryOp::Remainder => "has a quotient that is no ",
            _ => "is no ",
        },
        Cause::ZeroDivisor => "divides by a zero of type ",
        Cause::Count => "has a count outside the width of ",
        Cause::NegativeLeft => "is of a negative ",
    }
}

// The section of the rule.
fn rule_section(cause: Cause, op: BinaryOp) -> &'static str
    ensures { result.now ≡ faults.rule_section cause op }
{
    match cause {
        Cause::Overflow => match op {
            BinaryOp::Divide => "6.5.5p6",
            BinaryOp::Remainder => "6.5.5p6",
            BinaryOp::ShiftLeft => "6.5.7p4",
            _ => "6.5p5",
        },
        Cause::ZeroDivisor => "6.5.5p5",
        Cause::Count => "6.5.7p3",
        Cause::NegativeLeft => "6.5.7p4",
    }
}

// A word as a number with a sign.
fn signed_text(alloc: Global, w: u64) -> Result<String, AllocError>
    ensures { IfOk result (λ text. string_bytes text ≡ faults.told Kind.Long w) }
{
    let number = w.cast_signed();
    format!(in alloc; "{number}")
}

// A word as a number without a sign.
fn unsigned_text(alloc: Global, w: u64) -> Result<String, AllocError>
    ensures { IfOk result (λ text. string_bytes text ≡ faults.told Kind.ULong w) }
{
    format!(in alloc; "{w}")
}

// A word as the number that it stands for at a type.
fn told(alloc: Global, kind: Kind, w: u64) -> Result<String, AllocError>
    ensures { IfOk result (λ text. string_bytes text ≡ faults.told kind w) }
{
    match kind {
        Kind::Char | Kind::Short | Kind::Int | Kind::Long => signed_text(alloc, w),
        Kind::UChar | Kind::UShort | Kind::UInt | Kind::ULong | Kind::Bool => {
            unsigned_text(alloc, w)
        }
    }
}

// An operation on two operands, with its numbers.
fn operation_told(alloc: Global, op: BinaryOp, a: &str, b: &str) -> Result<String, AllocError>
    ensures { IfOk result (λ text. string_bytes text ≡ faults.operation_told op a.now b.now) }
{
    let name = result_name(op);
    let sign = sign(op);
    format!(in alloc; "the {name} {a} {sign} {b}")
}

// The rule that it breaks.
fn rule_told(alloc: Global, cause: Cause, op: BinaryOp, kind: Kind) -> Result<String, AllocError>
    ensures { IfOk result (λ text. string_bytes text ≡ faults.rule_told cause op kind) }
{
    let words = rule_words(cause, op);
    let name = kind_name(kind);
    let section = rule_section(cause, op);
    format!(in alloc; " {words}{name} (C17 {section})")
}

// The sentence of an operation on two operands.
fn binary_sentence(
    alloc: Global,
    cause: Cause,
    op: BinaryOp,
    kind: Kind,
    a: u64,
    b: u64,
) -> Result<String, AllocError>
    ensures { IfOk result (λ text. string_bytes text
        ≡ faults.operation_told op (faults.told kind a) (faults.told (faults.right_kind op kind) b)
        ++ faults.rule_told cause op kind) }
{
    let left = told(alloc, kind, a)?;
    let right = told(alloc, right_kind(op, kind), b)?;
    let done = operation_told(alloc, op, left.as_str(), right.as_str())?;
    let rule = rule_told(alloc, cause, op, kind)?;
    format!(in alloc; "{done}{rule}")
}

// What is done to one operand.
fn unary_name(op: UnaryOp) -> &'static str
    ensures { result.now ≡ faults.unary_name op }
{
    match op {
        UnaryOp::Minus => "negation",
        _ => "result",
    }
}

// The sentence of an operation on one operand.
fn unary_sentence(alloc: Global, op: UnaryOp, kind: Kind, a: u64) -> Result<String, AllocError>
    ensures { IfOk result (λ text. string_bytes text ≡ faults.sentence (Fault.Unary op kind a)) }
{
    let name = unary_name(op);
    let number = told(alloc, kind, a)?;
    let type_name = kind_name(kind);
    format!(in alloc; "the {name} of {number} is no {type_name} (C17 6.5p5)")
}

// The sentence of an index.
fn outside_sentence(alloc: Global, at: u64, size: u64) -> Result<String, AllocError>
    ensures { IfOk result (λ text. string_bytes text ≡ faults.sentence (Fault.Outside at size)) }
{
    let number = signed_text(alloc, at)?;
    format!(in alloc; "the index {number} is outside its array of {size} (C17 6.5.6p8)")
}

// The sentence of one of two indexes.
fn rows_sentence(alloc: Global, size: u64, row: u64) -> Result<String, AllocError>
    ensures { IfOk result (λ text. string_bytes text ≡ faults.sentence (Fault.OutsideRows size row)) }
{
    format!(in alloc;
        "an index is outside its dimension of an array of {size} in rows of {row} (C17 6.5.6p8)"
    )
}

/// The sentence that tells why. Want of memory is the only error.
pub fn sentence(alloc: Global, fault: Fault) -> Result<String, AllocError>
    ensures { IfOk result (λ text. string_bytes text ≡ faults.sentence fault) }
{
    match fault {
        Fault::Binary(cause, op, kind, a, b) => binary_sentence(alloc, cause, op, kind, a, b),
        Fault::Unary(op, kind, a) => unary_sentence(alloc, op, kind, a),
        Fault::Outside(at, size) => outside_sentence(alloc, at, size),
        Fault::OutsideRows(size, row) => rows_sentence(alloc, size, row),
        Fault::NeverSet => {
            String::from_str(alloc, "a value is taken that was never set (C17 6.3.2.1p2)")
        }
        Fault::NoValue => String::from_str(
            alloc,
            "a value is taken of a call that returned none (C17 6.9.1p12)",
        ),
        Fault::IllFormed => String::from_str(alloc, "a tree that no typing makes"),
    }
}
