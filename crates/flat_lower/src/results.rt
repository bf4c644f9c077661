//! What follows operands.

ghost use Rattle.std.specs.Prelude.{◌≡◌, OnOk, IfOk};
ghost use Rattle.ir_forms.specs.inside.FlatViews.{code_of};
ghost use Rattle.flat_lower.specs.inside.Operations as operations;
ghost use Rattle.flat_lower.specs.inside.Operations.{set_word, unary_code, binary_code};
ghost use Rattle.flat_lower.specs.inside.Expressions as expressions;
ghost use Rattle.flat_lower.specs.inside.Expressions.{with_kind};
ghost use Rattle.flat_lower.specs.inside.Powers.{immediate_code};
ghost use Rattle.flat_lower.specs.inside.Emitted.{Adds};

use crate::emit::{put_let, temp};
use crate::operations::{put_binary, put_unary, put_word};
use crate::powers::{Power, put_immediate};
use base::{Items, Memory};
use c_tree::{BinaryOp, Kind, UnaryOp};
use ir_forms::{Arg, FlatStmt};
use std::alloc::Global;
use trips_isa::Op;

/// An operation on one operand, in the type of that operand.
#[tactic(auto, using(crate::proofs::Emits::nothing))]
pub fn put_unary_at(
    code: &mut Items<FlatStmt>,
    op: UnaryOp,
    kind: Option<Kind>,
    d: u8,
) -> Result<(), Memory>
    ensures { OnOk result (Adds code.old code.new
        (with_kind kind (λ k. unary_code op k (operations.temp d)))) }
{
    match kind {
        None => Ok(()),
        Some(kind) => put_unary(code, op, kind, temp(d)),
    }
}

/// The operation on temporaries d and `y`.
#[tactic(auto, using(crate::proofs::Emits::nothing))]
pub fn put_binary_at(
    code: &mut Items<FlatStmt>,
    op: BinaryOp,
    kind: Option<Kind>,
    d: u8,
    y: u8,
) -> Result<(), Memory>
    ensures { OnOk result (Adds code.old code.new
        (with_kind kind (λ k. binary_code op k (operations.temp d) (operations.temp y)))) }
{
    match kind {
        None => Ok(()),
        Some(kind) => put_binary(code, op, kind, temp(d), temp(y)),
    }
}

/// The operation on temporary d and a power of two.
#[tactic(auto, using(crate::proofs::Emits::nothing))]
pub fn put_immediate_at(
    code: &mut Items<FlatStmt>,
    op: BinaryOp,
    kind: Option<Kind>,
    p: Power,
    d: u8,
) -> Result<(), Memory>
    ensures { OnOk result (Adds code.old code.new
        (with_kind kind (λ k. immediate_code op k p (operations.temp d)))) }
{
    match kind {
        None => Ok(()),
        Some(kind) => put_immediate(code, op, kind, p, temp(d)),
    }
}

/// The answer of a test of temporary d.
pub fn put_tested(code: &mut Items<FlatStmt>, d: u8) -> Result<(), Memory>
    ensures { OnOk result (Adds code.old code.new (expressions.tested d)) }
{
    put_let(code, temp(d), Op::Tne, Arg::Var(temp(d)), Arg::Const(0))
}

/// The code of 1 in temporary d, on its own.
pub fn truth(alloc: Global, d: u8) -> Result<Items<FlatStmt>, Memory>
    ensures { IfOk result (λ code. code_of code ≡ set_word (operations.temp d) 1) }
{
    let mut code = Items::new(alloc);
    put_word(&mut code, temp(d), 1)?;
    Ok(code)
}
