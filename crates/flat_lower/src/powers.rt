//! Constants that are powers of two: shifts and masks do a product, a division or its remainder.

ghost use Rattle.std.specs.Prelude.{◌≡◌, ◌+◌, ◌≤◌, true, false, OnOk};
ghost use Rattle.trips_isa.specs.declared.op.Op.TheVariants.{And, Sub};
ghost use Rattle.ir_forms.specs.declared.flat.Arg.TheVariants.{Const, Var};
ghost use Rattle.ir_forms.specs.inside.FlatCode as flat;
ghost use Rattle.ir_forms.specs.inside.FlatCode.{Then, only};
ghost use Rattle.flat_lower.specs.inside.TreeViews.{expr_of};
ghost use Rattle.flat_lower.specs.inside.Operations as operations;
ghost use Rattle.flat_lower.specs.inside.Operations.{two_done};
ghost use Rattle.flat_lower.specs.inside.Powers as powers;
ghost use Rattle.flat_lower.specs.inside.Powers.{exact_code, bias_code, biased_code, rounded_code};
ghost use Rattle.flat_lower.specs.inside.Powers.{immediate_code, scaled_by};
ghost use Rattle.flat_lower.specs.inside.Emitted.{Adds};

use crate::emit::{put_let, scratch};
use crate::operations::put_two;
use base::{Items, Memory};
use c_constant::{convert, row, width};
use c_tree::{BinaryOp, Kind, TypedExpr, TypedNode};
use ir_forms::{Arg, FlatStmt};
use trips_isa::Op;

/// A power of two: its exponent, and the mask of the bits below its own.
#[derive(Clone, Copy, Debug, PartialEq, Eq)]
pub struct Power {
    pub exponent: u64,
    pub mask: u64,
}

// The exponent of w, if it is among so many powers of two, of which `power`, 2^n, is the least.
fn exponent_from(left: u64, n: u64, power: u64, w: u64) -> Option<u64>
    requires { n + left ≤ 64 }
    ensures { result ≡ powers.exponent_from left n power w }
{
    if left == 0 {
        None
    } else if power == w {
        Some(n)
    } else if power <= w / 2 {
        exponent_from(left - 1, n + 1, power + power, w)
    } else {
        None
    }
}

// The exponent of a word that is a power of two.
#[tactic(auto, unfolding(crate::specs::inside::Powers::exponent_of))]
fn exponent_of(w: u64) -> Option<u64>
    ensures { result ≡ powers.exponent_of w }
{
    exponent_from(64, 0, 1, w)
}

// The power of two that a word is.
fn power_of(w: u64) -> Option<Power>
    ensures { result ≡ powers.power_by (powers.exponent_of w) w }
{
    match exponent_of(w) {
        None => None,
        Some(n) => Some(Power {
            exponent: n,
            mask: w.saturating_sub(1),
        }),
    }
}

// The word of a number.
fn number_of(e: &TypedExpr) -> Option<u64>
    ensures { result ≡ powers.number_of (expr_of e.now) }
{
    match &e.node {
        TypedNode::Number(word) => Some(*word),
        _ => None,
    }
}

// A word at another type, if there is one.
fn converted_number(kind: Kind, w: Option<u64>) -> Option<u64>
    ensures { result ≡ powers.converted_number kind w }
{
    match w {
        None => None,
        Some(w) => Some(convert(kind, w)),
    }
}

// The word of a constant operand: a number, or one that typing converts.
fn constant_of(e: &TypedExpr) -> Option<u64>
    ensures { result ≡ powers.constant_of (expr_of e.now) }
{
    match &e.node {
        TypedNode::Number(word) => Some(*word),
        TypedNode::Convert { to, e } => converted_number(*to, number_of(e.get())),
        _ => None,
    }
}

// The power of two that a constant is.
fn power_if(w: Option<u64>) -> Option<Power>
    ensures { result ≡ powers.power_if w }
{
    match w {
        None => None,
        Some(w) => power_of(w),
    }
}

// The powers of a type with a sign lie below its sign's bit, and 1 is none of them.
fn signed_power(p: Power) -> Option<Power>
    ensures { result ≡ powers.signed_power p }
{
    if 0 < p.exponent {
        if p.exponent < 63 { Some(p) } else { None }
    } else {
        None
    }
}

// The power at a type.
fn power_at(kind: Kind, p: Option<Power>) -> Option<Power>
    ensures { result ≡ powers.power_at kind p }
{
    match p {
        None => None,
        Some(p) => {
            if row(kind).signed {
                signed_power(p)
            } else {
                Some(p)
            }
        }
    }
}

// At a type that is known.
fn power_for(kind: Option<Kind>, p: Option<Power>) -> Option<Power>
    ensures { result ≡ powers.power_for kind p }
{
    match kind {
        None => None,
        Some(kind) => power_at(kind, p),
    }
}

/// The power that stands in an operation in place of its right operand, where this needs no temporary.
pub fn immediate_for(op: BinaryOp, kind: Option<Kind>, e: &TypedExpr) -> Option<Power>
    ensures { result ≡ powers.immediate_for op kind (expr_of e.now) }
{
    match op {
        BinaryOp::Divide => power_for(kind, power_if(constant_of(e))),
        BinaryOp::Remainder => power_for(kind, power_if(constant_of(e))),
        _ => None,
    }
}

// On a number that is never negative.
fn put_exact(code: &mut Items<FlatStmt>, op: BinaryOp, p: Power, x: u16) -> Result<(), Memory>
    ensures { OnOk result (Adds code.old code.new (exact_code op p x)) }
{
    match op {
        BinaryOp::Divide => put_let(code, x, Op::Srl, Arg::Var(x), Arg::Const(p.exponent)),
        _ => put_let(code, x, Op::And, Arg::Var(x), Arg::Const(p.mask)),
    }
}

// Whether the first n bits of each word of a type are its sign.
fn are_signs(kind: Kind, n: u64) -> bool
    ensures { result ≡ powers.are_signs kind n }
{
    n <= 65u64.saturating_sub(width(kind))
}

// The first n bits of a variable, in the scratch variable.
fn put_first_bits(code: &mut Items<FlatStmt>, n: u64, x: u16) -> Result<(), Memory>
    ensures { OnOk result (Adds code.old code.new (bias_code true n x)) }
{
    put_let(
        code,
        scratch(0),
        Op::Srl,
        Arg::Var(x),
        Arg::Const(64u64.saturating_sub(n)),
    )
}

// The first n bits of x's sign.
fn put_signs(code: &mut Items<FlatStmt>, n: u64, x: u16) -> Result<(), Memory>
    ensures { OnOk result (Adds code.old code.new (bias_code false n x)) }
{
    put_let(code, scratch(0), Op::Sra, Arg::Var(x), Arg::Const(63))?;
    put_first_bits(code, n, scratch(0))?;
    Ok(())
}

// The bias of x: the mask where x is negative, else 0.
fn put_bias(code: &mut Items<FlatStmt>, short: bool, n: u64, x: u16) -> Result<(), Memory>
    ensures { OnOk result (Adds code.old code.new (bias_code short n x)) }
{
    if short {
        put_first_bits(code, n, x)
    } else {
        put_signs(code, n, x)
    }
}

// What the mask leaves of x, less the bias.
fn put_left(code: &mut Items<FlatStmt>, mask: u64, x: u16) -> Result<(), Memory>
    ensures { OnOk result (Adds code.old code.new
        (Then (only (flat.Let x And (Var x) (Const mask))) (two_done x Sub x (operations.scratch 0)))) }
{
    put_let(code, x, Op::And, Arg::Var(x), Arg::Const(mask))?;
    put_two(code, x, Op::Sub, x, scratch(0))?;
    Ok(())
}

// The operation on x to which its bias was added.
fn put_biased(code: &mut Items<FlatStmt>, op: BinaryOp, p: Power, x: u16) -> Result<(), Memory>
    ensures { OnOk result (Adds code.old code.new (biased_code op p x)) }
{
    match op {
        BinaryOp::Divide => put_let(code, x, Op::Sra, Arg::Var(x), Arg::Const(p.exponent)),
        _ => put_left(code, p.mask, x),
    }
}

// On a number that may be negative: the quotient is rounded toward zero.
fn put_rounded(
    code: &mut Items<FlatStmt>,
    op: BinaryOp,
    kind: Kind,
    p: Power,
    x: u16,
) -> Result<(), Memory>
    ensures { OnOk result (Adds code.old code.new (rounded_code op kind p x)) }
{
    put_bias(code, are_signs(kind, p.exponent), p.exponent, x)?;
    put_two(code, x, Op::Add, x, scratch(0))?;
    put_biased(code, op, p, x)?;
    Ok(())
}

/// The operation on x and that power.
pub fn put_immediate(
    code: &mut Items<FlatStmt>,
    op: BinaryOp,
    kind: Kind,
    p: Power,
    x: u16,
) -> Result<(), Memory>
    ensures { OnOk result (Adds code.old code.new (immediate_code op kind p x)) }
{
    if row(kind).signed {
        put_rounded(code, op, kind, p, x)
    } else {
        put_exact(code, op, p, x)
    }
}

/// x times a constant.
pub fn put_scaled(code: &mut Items<FlatStmt>, q: u64, x: u16) -> Result<(), Memory>
    ensures { OnOk result (Adds code.old code.new (scaled_by (powers.exponent_of q) q x)) }
{
    match exponent_of(q) {
        None => put_let(code, x, Op::Mul, Arg::Var(x), Arg::Const(q)),
        Some(n) => put_let(code, x, Op::Sll, Arg::Var(x), Arg::Const(n)),
    }
}
