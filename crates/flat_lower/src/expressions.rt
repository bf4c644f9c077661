//! The flat code of expressions. What emits a node stands in a frame of its own, so that a level of the tree takes
//! two small frames.

ghost use Rattle.std.specs.Prelude.{◌≡◌, suc, None, OnOk, IfOk};
ghost use Rattle.c_tree.specs.declared.BinaryOp.TheVariants.{LogicalAnd, LogicalOr};
ghost use Rattle.ir_forms.specs.inside.FlatCode.{Then};
ghost use Rattle.ir_forms.specs.inside.FlatViews.{code_of};
ghost use Rattle.flat_lower.specs.inside.Tree as tree;
ghost use Rattle.flat_lower.specs.inside.TreeViews.{expr_of};
ghost use Rattle.flat_lower.specs.inside.Expressions as expressions;
ghost use Rattle.flat_lower.specs.inside.Expressions.{expr_code, args_code, index_code, temps};
ghost use Rattle.flat_lower.specs.inside.Expressions.{binary_end, strict_code, operand_at, with_kind};
ghost use Rattle.flat_lower.specs.inside.Expressions.{joined_code};
ghost use Rattle.flat_lower.specs.inside.Powers as powers;
ghost use Rattle.flat_lower.specs.inside.Operations as operations;
ghost use Rattle.flat_lower.specs.inside.Operations.{set_word, unary_code, binary_code};
ghost use Rattle.flat_lower.specs.inside.Emitted.{Adds, args_of, side_in};

use crate::assignments::{put_after, put_before, right_at};
use crate::bumping::put_bump;
use crate::calling::put_callee;
use crate::emit::{deeper, put_if, temp};
use crate::names::{put_element, put_joined, put_name};
use crate::operations::{put_converted_here, put_word};
use crate::places::Places;
use crate::powers::immediate_for;
use crate::results::{put_binary_at, put_immediate_at, put_tested, put_unary_at, truth};
use crate::sides::{kind_of, side_of};
use base::{Boxed, Items, Memory};
use c_tree::{BinaryOp, BumpOp, Callee, Kind, Place, TypedExpr, TypedNode, UnaryOp};
use ir_forms::{Arg, FlatStmt};
use std::alloc::Global;

// An operand at a depth.
#[cycle(value)]
#[inline(never)]
fn put_operand(
    code: &mut Items<FlatStmt>,
    alloc: Global,
    places: &Places,
    d: u8,
    op: UnaryOp,
    e: &TypedExpr,
) -> Result<(), Memory>
    ensures { OnOk result (Adds code.old code.new
        (expr_code places.now d (tree.Unary None op (expr_of e.now)))) }
{
    put_value(code, alloc, places, d, e)?;
    put_unary_at(code, op, kind_of(e), d)?;
    Ok(())
}

// A conversion after its operand.
#[cycle(value)]
#[inline(never)]
fn put_conversion(
    code: &mut Items<FlatStmt>,
    alloc: Global,
    places: &Places,
    d: u8,
    to: Kind,
    e: &TypedExpr,
) -> Result<(), Memory>
    ensures { OnOk result (Adds code.old code.new
        (expr_code places.now d (tree.Convert None to (expr_of e.now)))) }
{
    put_value(code, alloc, places, d, e)?;
    put_converted_here(code, kind_of(e), to, temp(d))?;
    Ok(())
}

// The value of an element after its index.
#[cycle(value)]
#[inline(never)]
fn put_element_value(
    code: &mut Items<FlatStmt>,
    alloc: Global,
    places: &Places,
    d: u8,
    kind: Option<Kind>,
    array: Place,
    index: &TypedExpr,
) -> Result<(), Memory>
    ensures { OnOk result (Adds code.old code.new
        (expr_code places.now d (tree.Element kind array (expr_of index.now)))) }
{
    put_value(code, alloc, places, d, index)?;
    put_element(code, places, kind, array, d)?;
    Ok(())
}

// Two indexes, which make one among all elements.
#[cycle(value)]
#[inline(never)]
fn put_indexes(
    code: &mut Items<FlatStmt>,
    alloc: Global,
    places: &Places,
    d: u8,
    array: Place,
    row: &TypedExpr,
    index: &TypedExpr,
) -> Result<(), Memory>
    ensures { OnOk result (Adds code.old code.new (joined_code places.now array d
        (expr_code places.now d (expr_of row.now))
        (expr_code places.now (suc d) (expr_of index.now)))) }
{
    put_value(code, alloc, places, d, row)?;
    let second = deeper(d)?;
    put_value(code, alloc, places, second, index)?;
    put_joined(code, places, array, d, second)?;
    Ok(())
}

// The value of an element after its two indexes.
#[cycle(value)]
#[inline(never)]
fn put_row_element(
    code: &mut Items<FlatStmt>,
    alloc: Global,
    places: &Places,
    d: u8,
    kind: Option<Kind>,
    array: Place,
    row: &TypedExpr,
    index: &TypedExpr,
) -> Result<(), Memory>
    ensures { OnOk result (Adds code.old code.new (expr_code places.now d
        (tree.RowElement kind array (expr_of row.now) (expr_of index.now)))) }
{
    put_indexes(code, alloc, places, d, array, row, index)?;
    put_element(code, places, kind, array, d)?;
    Ok(())
}

/// The arguments, each in a temporary of its own; gives those.
#[cycle(value)]
fn put_args(
    code: &mut Items<FlatStmt>,
    alloc: Global,
    places: &Places,
    d: u8,
    args: &[Boxed<TypedExpr>],
) -> Result<Items<Arg>, Memory>
    ensures code { OnOk result (Adds code.old code.new
        (args_code places.now d (args_of args.now))) }
    ensures vars { IfOk result (λ vars. vars ≡ temps d (args_of args.now)) }
{
    let mut at = d;
    let mut vars = Items::new(alloc);
    for arg in args {
        put_value(code, alloc, places, at, arg.get())?;
        vars.push(Arg::Var(temp(at)))?;
        at = deeper(at)?;
    }
    Ok(vars)
}

// A call after its arguments.
#[cycle(value)]
#[inline(never)]
fn put_called(
    code: &mut Items<FlatStmt>,
    alloc: Global,
    places: &Places,
    d: u8,
    kind: Option<Kind>,
    function: Callee,
    args: &[Boxed<TypedExpr>],
) -> Result<(), Memory>
    ensures { OnOk result (Adds code.old code.new
        (expr_code places.now d (tree.Call kind function (args_of args.now)))) }
{
    let vars = put_args(code, alloc, places, d, args)?;
    put_callee(code, function, kind, d, vars)?;
    Ok(())
}

/// The index of a left side, where it has one; two make one.
#[cycle(value)]
#[tactic(auto, using(crate::proofs::Emits::nothing))]
fn put_index(
    code: &mut Items<FlatStmt>,
    alloc: Global,
    places: &Places,
    d: u8,
    e: &TypedExpr,
) -> Result<(), Memory>
    ensures { OnOk result (Adds code.old code.new (index_code places.now d (expr_of e.now))) }
{
    match &e.node {
        TypedNode::Element { array, row, index } => match row {
            None => put_value(code, alloc, places, d, index.get()),
            Some(row) => put_indexes(code, alloc, places, d, *array, row.get(), index.get()),
        },
        _ => Ok(()),
    }
}

// `++` and `--` after the index of an element.
#[cycle(value)]
#[inline(never)]
fn put_bumping(
    code: &mut Items<FlatStmt>,
    alloc: Global,
    places: &Places,
    d: u8,
    op: BumpOp,
    e: &TypedExpr,
) -> Result<(), Memory>
    ensures { OnOk result (Adds code.old code.new
        (expr_code places.now d (tree.Bump None op (expr_of e.now)))) }
{
    put_index(code, alloc, places, d, e)?;
    put_bump(code, places, op, d, side_of(e), kind_of(e))?;
    Ok(())
}

/// The code of an expression on its own.
#[cycle(value)]
fn value(alloc: Global, places: &Places, d: u8, e: &TypedExpr) -> Result<Items<FlatStmt>, Memory>
    ensures { IfOk result (λ code. code_of code ≡ expr_code places.now d (expr_of e.now)) }
{
    let mut code = Items::new(alloc);
    put_value(&mut code, alloc, places, d, e)?;
    Ok(code)
}

/// The code of a test of an expression on its own.
#[cycle(value)]
fn tested(alloc: Global, places: &Places, d: u8, e: &TypedExpr) -> Result<Items<FlatStmt>, Memory>
    ensures { IfOk result (λ code.
        code_of code ≡ Then (expr_code places.now d (expr_of e.now)) (expressions.tested d)) }
{
    let mut code = Items::new(alloc);
    put_value(&mut code, alloc, places, d, e)?;
    put_tested(&mut code, d)?;
    Ok(code)
}

/// The right side of `&&`, where the left one is not 0.
#[cycle(value)]
fn put_and(
    code: &mut Items<FlatStmt>,
    alloc: Global,
    places: &Places,
    d: u8,
    e: &TypedExpr,
) -> Result<(), Memory>
    ensures { OnOk result (Adds code.old code.new
        (binary_end LogicalAnd None d None (expr_code places.now d (expr_of e.now)))) }
{
    let yes = tested(alloc, places, d, e)?;
    put_if(code, Arg::Var(temp(d)), yes, Items::new(alloc))?;
    Ok(())
}

/// The right side of `||`, where the left one is 0.
#[cycle(value)]
fn put_or(
    code: &mut Items<FlatStmt>,
    alloc: Global,
    places: &Places,
    d: u8,
    e: &TypedExpr,
) -> Result<(), Memory>
    ensures { OnOk result (Adds code.old code.new
        (binary_end LogicalOr None d None (expr_code places.now d (expr_of e.now)))) }
{
    let yes = truth(alloc, d)?;
    let no = tested(alloc, places, d, e)?;
    put_if(code, Arg::Var(temp(d)), yes, no)?;
    Ok(())
}

/// The right operand in the next temporary, and the operation.
#[cycle(value)]
fn put_operation(
    code: &mut Items<FlatStmt>,
    alloc: Global,
    places: &Places,
    d: u8,
    op: BinaryOp,
    kind: Option<Kind>,
    e: &TypedExpr,
) -> Result<(), Memory>
    ensures { OnOk result (Adds code.old code.new
        (Then (expr_code places.now (suc d) (expr_of e.now))
        (with_kind kind (λ k. binary_code op k (operations.temp d) (operations.temp (suc d)))))) }
{
    let next = deeper(d)?;
    put_value(code, alloc, places, next, e)?;
    put_binary_at(code, op, kind, d, next)?;
    Ok(())
}

// The operation on both operands, or on the left one and a power of two.
#[cycle(value)]
fn put_strict(
    code: &mut Items<FlatStmt>,
    alloc: Global,
    places: &Places,
    d: u8,
    op: BinaryOp,
    kind: Option<Kind>,
    e: &TypedExpr,
) -> Result<(), Memory>
    ensures { OnOk result (Adds code.old code.new
        (strict_code op kind d (powers.immediate_for op kind (expr_of e.now))
        (expr_code places.now (suc d) (expr_of e.now)))) }
{
    match immediate_for(op, kind, e) {
        None => put_operation(code, alloc, places, d, op, kind, e),
        Some(p) => put_immediate_at(code, op, kind, p, d),
    }
}

/// What follows the left operand.
#[cycle(value)]
#[inline(never)]
fn put_right(
    code: &mut Items<FlatStmt>,
    alloc: Global,
    places: &Places,
    d: u8,
    op: BinaryOp,
    kind: Option<Kind>,
    e: &TypedExpr,
) -> Result<(), Memory>
    ensures { OnOk result (Adds code.old code.new
        (binary_end op kind d (powers.immediate_for op kind (expr_of e.now))
        (expr_code places.now (operand_at op d) (expr_of e.now)))) }
{
    match op {
        BinaryOp::LogicalAnd => put_and(code, alloc, places, d, e),
        BinaryOp::LogicalOr => put_or(code, alloc, places, d, e),
        _ => put_strict(code, alloc, places, d, op, kind, e),
    }
}

// An operation on two operands.
#[cycle(value)]
#[inline(never)]
fn put_both(
    code: &mut Items<FlatStmt>,
    alloc: Global,
    places: &Places,
    d: u8,
    op: BinaryOp,
    left: &TypedExpr,
    right: &TypedExpr,
) -> Result<(), Memory>
    ensures { OnOk result (Adds code.old code.new
        (expr_code places.now d (tree.Binary None op (expr_of left.now) (expr_of right.now)))) }
{
    put_value(code, alloc, places, d, left)?;
    put_right(code, alloc, places, d, op, kind_of(left), right)?;
    Ok(())
}

// A choice between two legs.
#[cycle(value)]
#[inline(never)]
fn put_choice(
    code: &mut Items<FlatStmt>,
    alloc: Global,
    places: &Places,
    d: u8,
    test: &TypedExpr,
    yes: &TypedExpr,
    no: &TypedExpr,
) -> Result<(), Memory>
    ensures { OnOk result (Adds code.old code.new (expr_code places.now d
        (tree.Choice None (expr_of test.now) (expr_of yes.now) (expr_of no.now)))) }
{
    put_value(code, alloc, places, d, test)?;
    let yes = value(alloc, places, d, yes)?;
    let no = value(alloc, places, d, no)?;
    put_if(code, Arg::Var(temp(d)), yes, no)?;
    Ok(())
}

// An assignment.
#[cycle(value)]
#[inline(never)]
fn put_assignment(
    code: &mut Items<FlatStmt>,
    alloc: Global,
    places: &Places,
    d: u8,
    op: Option<BinaryOp>,
    at: Kind,
    left: &TypedExpr,
    right: &TypedExpr,
) -> Result<(), Memory>
    ensures { OnOk result (Adds code.old code.new (expr_code places.now d
        (tree.Assign None op at (expr_of left.now) (expr_of right.now)))) }
{
    let side = side_of(left);
    put_index(code, alloc, places, d, left)?;
    put_before(code, places, op, at, d, side, kind_of(left))?;
    put_value(code, alloc, places, right_at(op, d, side)?, right)?;
    put_after(code, places, op, at, d, side, kind_of(left))?;
    Ok(())
}

// Both sides of a comma, the left one without its value.
#[cycle(value)]
#[inline(never)]
fn put_comma(
    code: &mut Items<FlatStmt>,
    alloc: Global,
    places: &Places,
    d: u8,
    left: &TypedExpr,
    right: &TypedExpr,
) -> Result<(), Memory>
    ensures { OnOk result (Adds code.old code.new
        (expr_code places.now d (tree.Comma None (expr_of left.now) (expr_of right.now)))) }
{
    put_value(code, alloc, places, d, left)?;
    put_value(code, alloc, places, d, right)?;
    Ok(())
}

/// An expression's value, in temporary d.
#[cycle(value)]
pub fn put_value(
    code: &mut Items<FlatStmt>,
    alloc: Global,
    places: &Places,
    d: u8,
    e: &TypedExpr,
) -> Result<(), Memory>
    ensures { OnOk result (Adds code.old code.new (expr_code places.now d (expr_of e.now))) }
{
    match &e.node {
        TypedNode::Number(w) => put_word(code, temp(d), *w),
        TypedNode::Name(place) => put_name(code, places, e.kind, *place, temp(d)),
        TypedNode::Element { array, row, index } => match row {
            None => put_element_value(code, alloc, places, d, e.kind, *array, index.get()),
            Some(row) => {
                put_row_element(
                    code,
                    alloc,
                    places,
                    d,
                    e.kind,
                    *array,
                    row.get(),
                    index.get(),
                )
            }
        },
        TypedNode::Call { function, args } => {
            put_called(code, alloc, places, d, e.kind, *function, args.as_slice())
        }
        TypedNode::Unary { op, e } => put_operand(code, alloc, places, d, *op, e.get()),
        TypedNode::Cast { to, e } => put_conversion(code, alloc, places, d, *to, e.get()),
        TypedNode::Convert { to, e } => put_conversion(code, alloc, places, d, *to, e.get()),
        TypedNode::Bump { op, e } => put_bumping(code, alloc, places, d, *op, e.get()),
        TypedNode::Binary { op, left, right } => {
            put_both(code, alloc, places, d, *op, left.get(), right.get())
        }
        TypedNode::Choice { test, yes, no } => {
            put_choice(code, alloc, places, d, test.get(), yes.get(), no.get())
        }
        TypedNode::Assign {
            op,
            at,
            left,
            right,
        } => put_assignment(code, alloc, places, d, *op, *at, left.get(), right.get()),
        TypedNode::Comma { left, right } => {
            put_comma(code, alloc, places, d, left.get(), right.get())
        }
    }
}
