//! The flat code of expression statements.

ghost use Rattle.std.specs.Prelude.{◌≡◌, Some, None, IfOk, OnOk};
ghost use Rattle.flat_lower.specs.inside.Tree as tree;
ghost use Rattle.flat_lower.specs.inside.TreeViews.{expr_of, expr_if};
ghost use Rattle.flat_lower.specs.inside.Expressions.{expr_code};
ghost use Rattle.flat_lower.specs.inside.Statements as statements;
ghost use Rattle.flat_lower.specs.inside.Statements.{set_or, assigned_code, plain_code, plain_if_code};
ghost use Rattle.flat_lower.specs.inside.Emitted.{Adds};

use crate::emit::{put_let, scalar};
use crate::expressions::put_value;
use crate::places::Places;
use base::{Boxed, Items, Memory};
use c_tree::{BinaryOp, Place, TypedExpr, TypedNode};
use ir_forms::{Arg, FlatStmt};
use std::alloc::Global;
use trips_isa::Op;

/// The scalar that a place is, where it is one.
fn place_scalar(place: Place) -> Result<Option<u16>, Memory>
    ensures { IfOk result (λ i. i ≡ statements.named_scalar (tree.Name None place)) }
{
    match place {
        Place::Global(_) => Ok(None),
        Place::Scalar(i) => {
            let x = scalar(i)?;
            Ok(Some(x))
        }
        Place::Array(_) => Ok(None),
    }
}

/// The scalar that an expression names.
fn named_scalar(e: &TypedExpr) -> Result<Option<u16>, Memory>
    ensures { IfOk result (λ i. i ≡ statements.named_scalar (expr_of e.now)) }
{
    match &e.node {
        TypedNode::Name(place) => place_scalar(*place),
        _ => Ok(None),
    }
}

/// The operand that a place is, where it is a scalar.
fn place_arg(place: Place) -> Result<Option<Arg>, Memory>
    ensures { IfOk result (λ a. a ≡ statements.simple_arg (tree.Name None place)) }
{
    match place {
        Place::Global(_) => Ok(None),
        Place::Scalar(i) => {
            let x = scalar(i)?;
            Ok(Some(Arg::Var(x)))
        }
        Place::Array(_) => Ok(None),
    }
}

/// The operand that a number or a scalar's name stands for.
fn simple_arg(e: &TypedExpr) -> Result<Option<Arg>, Memory>
    ensures { IfOk result (λ a. a ≡ statements.simple_arg (expr_of e.now)) }
{
    match &e.node {
        TypedNode::Number(word) => Ok(Some(Arg::Const(*word))),
        TypedNode::Name(place) => place_arg(*place),
        _ => Ok(None),
    }
}

/// One statement, where scalar and operand are known, else the code of the assignment e.
fn put_set_or(
    code: &mut Items<FlatStmt>,
    alloc: Global,
    places: &Places,
    to: Option<u16>,
    from: Option<Arg>,
    e: &TypedExpr,
) -> Result<(), Memory>
    ensures { OnOk result (Adds code.old code.new
        (set_or to from (expr_code places.now 0 (expr_of e.now)))) }
{
    match to {
        None => put_value(code, alloc, places, 0, e),
        Some(i) => match from {
            None => put_value(code, alloc, places, 0, e),
            Some(a) => put_let(code, i, Op::Mov, a, Arg::Const(0)),
        },
    }
}

/// An assignment e of a right side to a left side.
fn put_assigned(
    code: &mut Items<FlatStmt>,
    alloc: Global,
    places: &Places,
    op: Option<BinaryOp>,
    left: &TypedExpr,
    right: &TypedExpr,
    e: &TypedExpr,
) -> Result<(), Memory>
    ensures { OnOk result (Adds code.old code.new (assigned_code op (expr_of left.now)
        (expr_of right.now) (expr_code places.now 0 (expr_of e.now)))) }
{
    match op {
        None => {
            let to = named_scalar(left)?;
            let from = simple_arg(right)?;
            put_set_or(code, alloc, places, to, from, e)
        }
        Some(_) => put_value(code, alloc, places, 0, e),
    }
}

/// An expression without its value.
fn put_plain_value(
    code: &mut Items<FlatStmt>,
    alloc: Global,
    places: &Places,
    e: &TypedExpr,
) -> Result<(), Memory>
    ensures { OnOk result (Adds code.old code.new (plain_code places.now (expr_of e.now))) }
{
    match &e.node {
        TypedNode::Assign {
            op,
            left,
            right,
            ..
        } => put_assigned(code, alloc, places, *op, left.get(), right.get(), e),
        _ => put_value(code, alloc, places, 0, e),
    }
}

/// An expression statement, which may have no expression.
#[tactic(auto, using(crate::proofs::Emits::nothing))]
pub fn put_plain(
    code: &mut Items<FlatStmt>,
    alloc: Global,
    places: &Places,
    e: &Option<Boxed<TypedExpr>>,
) -> Result<(), Memory>
    ensures { OnOk result (Adds code.old code.new (plain_if_code places.now (expr_if e.now))) }
{
    match e {
        None => Ok(()),
        Some(e) => put_plain_value(code, alloc, places, e.get()),
    }
}
