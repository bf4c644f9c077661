//! The typing of expressions, node by node.

ghost use Rattle.std.specs.Prelude.{◌≡◌, Some, None};
ghost use Rattle.c_tree.specs.declared.typed.TypedExpr.{TypedExpr};
ghost use Rattle.c_type_expr.specs.Blames.{first};
ghost use Rattle.c_tree.specs.declared.tree.ExprNode.TheVariants as node;
ghost use Rattle.c_type_expr.specs.inside.Faults as faults;
ghost use Rattle.c_type_expr.specs.Faults.{fault, role_at};
ghost use Rattle.c_type_expr.specs.Trees.{tree};
ghost use Rattle.c_type_expr.specs.Trees as trees;
ghost use Rattle.c_type_expr.specs.inside.Trees as inside_trees;
ghost use Rattle.c_type_expr.specs.inside.Says.{Says, Types};
ghost use Rattle.c_type_expr.specs.Roles.{at};

use crate::arguments::{after_first, converted_for, role_for};
use crate::build;
use crate::fault::TypeFault;
use crate::found::{call_at, element_at, place_at, slots_in, value_at};
use crate::leaves::{is_place, left_role, name, number};
use crate::role::Role;
use crate::scopes::Scopes;
use crate::spot::Spot;
use base::{Boxed, Items, Queue};
use c_tree::{BinaryOp, BumpOp, Expr, ExprNode, Kind, Slot, TypedExpr, TypedNode, UnaryOp, Word};
use std::alloc::Global;

#[cycle(expr)]
#[tactic(auto, using(crate::proofs::Nodes::on_element))]
#[inline(never)]
fn element(
    alloc: Global,
    scope: &Scopes,
    role: &Role,
    spot: Spot,
    array: Word,
    index: Boxed<Expr>,
) -> Result<Boxed<TypedExpr>, TypeFault>
    ensures { Types (at spot (node.Element array None index)) role.now scope.now result }
{
    let index = operand(alloc, scope, &Role::Value, index)?;
    let (kind, place) = element_at(scope.look_up(&array), false, *role, spot.offset)?;
    Ok(build::element(alloc, spot.at, kind, place, index)?)
}

// An element with two indexes.
#[cycle(expr)]
#[tactic(auto, using(crate::proofs::Nodes::on_row_element))]
#[inline(never)]
fn row_element(
    alloc: Global,
    scope: &Scopes,
    role: &Role,
    spot: Spot,
    array: Word,
    row: Boxed<Expr>,
    index: Boxed<Expr>,
) -> Result<Boxed<TypedExpr>, TypeFault>
    ensures { Types (at spot (node.Element array (Some row) index)) role.now scope.now result }
{
    let row = operand(alloc, scope, &Role::Value, row)?;
    let index = operand(alloc, scope, &Role::Value, index)?;
    let (kind, place) = element_at(scope.look_up(&array), true, *role, spot.offset)?;
    Ok(build::row_element(alloc, spot.at, kind, place, row, index)?)
}

// An element with one index or two.
#[cycle(expr)]
#[inline(never)]
fn element_of(
    alloc: Global,
    scope: &Scopes,
    role: &Role,
    spot: Spot,
    array: Word,
    row: Option<Boxed<Expr>>,
    index: Boxed<Expr>,
) -> Result<Boxed<TypedExpr>, TypeFault>
    ensures { Types (at spot (node.Element array row index)) role.now scope.now result }
{
    match row {
        None => element(alloc, scope, role, spot, array, index),
        Some(row) => row_element(alloc, scope, role, spot, array, row, index),
    }
}

#[cycle(expr)]
#[tactic(auto, using(crate::proofs::Nodes::on_call))]
#[inline(never)]
fn call(
    alloc: Global,
    scope: &Scopes,
    role: &Role,
    spot: Spot,
    function: Word,
    args: Items<Boxed<Expr>>,
) -> Result<Boxed<TypedExpr>, TypeFault>
    ensures { Types (at spot (node.Call function args)) role.now scope.now result }
{
    let found = scope.look_up(&function);
    let count = args.len();
    let args = arguments(alloc, scope, slots_in(found), args)?;
    let (kind, function) = call_at(found, count, *role, spot.offset)?;
    Ok(build::boxed(alloc, spot.at, kind, TypedNode::Call { function, args })?)
}

#[cycle(expr)]
#[inline(never)]
fn argument(
    alloc: Global,
    scope: &Scopes,
    slots: &[Slot],
    arg: Boxed<Expr>,
) -> Result<Boxed<TypedExpr>, TypeFault>
    ensures { Says (fault arg scope.now (role_at slots.now))
        (trees.argument slots.now (tree arg scope.now)) result }
{
    let arg = operand(alloc, scope, &role_for(slots), arg)?;
    converted_for(alloc, slots, arg)
}

#[cycle(expr)]
fn arguments(
    alloc: Global,
    scope: &Scopes,
    slots: &[Slot],
    args: Items<Boxed<Expr>>,
) -> Result<Items<Boxed<TypedExpr>>, TypeFault>
    ensures { Says (faults.args_fault slots.now args scope.now)
        (inside_trees.args_tree slots.now args scope.now) result }
{
    let mut slots = slots;
    let mut rest = Queue::from_items(args);
    let mut found = Items::new(alloc);
    while let Some(arg) = rest.pop() {
        let arg = argument(alloc, scope, slots, arg)?;
        found.push(arg)?;
        slots = after_first(slots);
    }
    Ok(found)
}

#[cycle(expr)]
#[tactic(auto, using(crate::proofs::Nodes::on_unary))]
#[inline(never)]
fn unary(
    alloc: Global,
    scope: &Scopes,
    role: &Role,
    spot: Spot,
    op: UnaryOp,
    e: Boxed<Expr>,
) -> Result<Boxed<TypedExpr>, TypeFault>
    ensures { Types (at spot (node.Unary op e)) role.now scope.now result }
{
    let e = operand(alloc, scope, &Role::Value, e)?;
    value_at(*role, spot.offset)?;
    Ok(build::unary(alloc, spot.at, op, e)?)
}

#[cycle(expr)]
#[tactic(auto, using(crate::proofs::Nodes::on_cast))]
#[inline(never)]
fn cast(
    alloc: Global,
    scope: &Scopes,
    role: &Role,
    spot: Spot,
    to: Kind,
    e: Boxed<Expr>,
) -> Result<Boxed<TypedExpr>, TypeFault>
    ensures { Types (at spot (node.Cast to e)) role.now scope.now result }
{
    let e = operand(alloc, scope, &Role::Value, e)?;
    value_at(*role, spot.offset)?;
    Ok(build::cast(alloc, spot.at, to, e)?)
}

// The fault of an operand, or else that of the node at this offset, which is none that may stand around it.
#[cycle(expr)]
#[inline(never)]
fn no_node(
    alloc: Global,
    scope: &Scopes,
    role: &Role,
    offset: u32,
    e: Boxed<Expr>,
) -> Result<Boxed<TypedExpr>, TypeFault>
    ensures { (t : TypedExpr) → Says (first (fault e scope.now role.now)
        (Some (TypeFault.Mismatch offset))) t result }
{
    operand(alloc, scope, role, e)?;
    Err(TypeFault::Mismatch(offset))
}

// The same of an operand that does not stand on the heap and is wanted for its value.
#[cycle(expr)]
#[inline(never)]
fn no_leaf(
    alloc: Global,
    scope: &Scopes,
    offset: u32,
    e: Expr,
) -> Result<Boxed<TypedExpr>, TypeFault>
    ensures { (t : TypedExpr) → Says (first (fault e scope.now Role.Value)
        (Some (TypeFault.Mismatch offset))) t result }
{
    let e = Boxed::new(alloc, e)?;
    operand(alloc, scope, &Role::Value, e)?;
    Err(TypeFault::Mismatch(offset))
}

// The fault of a bump of what is no place. Bumps around another such bump change nothing: they are passed over.
#[cycle(expr)]
#[inline(never)]
fn no_bump(
    alloc: Global,
    scope: &Scopes,
    offset: u32,
    e: Boxed<Expr>,
) -> Result<Boxed<TypedExpr>, TypeFault>
    ensures { (t : TypedExpr) → Says (first (fault e scope.now Role.Value)
        (Some (TypeFault.Mismatch offset))) t result }
{
    let Expr {
        offset: at,
        at: token,
        node,
    } = e.into_inner();
    match node {
        ExprNode::Bump { op: _, e: inner } => {
            if is_place(inner.get()) {
                return no_node(alloc, scope, &Role::Written, offset, inner);
            }
            no_bump(alloc, scope, at, inner)
        }
        other => no_leaf(
            alloc,
            scope,
            offset,
            Expr {
                offset: at,
                at: token,
                node: other,
            },
        ),
    }
}

#[cycle(expr)]
#[tactic(auto, using(crate::proofs::Nodes::on_bump))]
#[inline(never)]
fn bump(
    alloc: Global,
    scope: &Scopes,
    role: &Role,
    spot: Spot,
    op: BumpOp,
    e: Boxed<Expr>,
) -> Result<Boxed<TypedExpr>, TypeFault>
    ensures { Types (at spot (node.Bump op e)) role.now scope.now result }
{
    if !is_place(e.get()) {
        return no_bump(alloc, scope, spot.offset, e);
    }
    let e = operand(alloc, scope, &Role::Written, e)?;
    value_at(*role, spot.offset)?;
    Ok(build::bump(alloc, spot.at, op, e)?)
}

#[cycle(expr)]
#[tactic(auto, using(crate::proofs::Nodes::on_binary))]
#[inline(always)]
fn binary(
    alloc: Global,
    scope: &Scopes,
    role: &Role,
    spot: Spot,
    op: BinaryOp,
    left: Boxed<Expr>,
    right: Boxed<Expr>,
) -> Result<Boxed<TypedExpr>, TypeFault>
    ensures { Types (at spot (node.Binary op left right)) role.now scope.now result }
{
    let left = operand(alloc, scope, &Role::Value, left)?;
    let right = operand(alloc, scope, &Role::Value, right)?;
    value_at(*role, spot.offset)?;
    Ok(build::binary(alloc, spot.at, op, left, right)?)
}

#[cycle(expr)]
#[tactic(auto, using(crate::proofs::Nodes::on_choice))]
#[inline(never)]
fn choice(
    alloc: Global,
    scope: &Scopes,
    role: &Role,
    spot: Spot,
    test: Boxed<Expr>,
    yes: Boxed<Expr>,
    no: Boxed<Expr>,
) -> Result<Boxed<TypedExpr>, TypeFault>
    ensures { Types (at spot (node.Choice test yes no)) role.now scope.now result }
{
    let test = operand(alloc, scope, &Role::Value, test)?;
    let yes = operand(alloc, scope, &Role::Value, yes)?;
    let no = operand(alloc, scope, &Role::Value, no)?;
    value_at(*role, spot.offset)?;
    Ok(build::choice(alloc, spot.at, test, yes, no)?)
}

#[cycle(expr)]
#[tactic(auto, using(crate::proofs::Nodes::on_assign))]
#[inline(never)]
fn assign(
    alloc: Global,
    scope: &Scopes,
    role: &Role,
    spot: Spot,
    op: Option<BinaryOp>,
    left: Boxed<Expr>,
    right: Boxed<Expr>,
) -> Result<Boxed<TypedExpr>, TypeFault>
    ensures { Types (at spot (node.Assign op left right)) role.now scope.now result }
{
    let is_place = is_place(left.get());
    let left = operand(alloc, scope, &left_role(is_place), left)?;
    let right = operand(alloc, scope, &Role::Value, right)?;
    place_at(is_place, spot.offset)?;
    value_at(*role, spot.offset)?;
    Ok(build::assign(alloc, spot.at, op, left, right)?)
}

#[cycle(expr)]
#[tactic(auto, using(crate::proofs::Nodes::on_comma))]
#[inline(always)]
fn comma(
    alloc: Global,
    scope: &Scopes,
    role: &Role,
    spot: Spot,
    left: Boxed<Expr>,
    right: Boxed<Expr>,
) -> Result<Boxed<TypedExpr>, TypeFault>
    ensures { Types (at spot (node.Comma left right)) role.now scope.now result }
{
    let left = operand(alloc, scope, &Role::Free, left)?;
    let right = operand(alloc, scope, &Role::Value, right)?;
    value_at(*role, spot.offset)?;
    Ok(build::comma(alloc, spot.at, left, right)?)
}

// The typed tree of an operand, or its first fault. Operands and what is made of them stand on the heap, so that a
// level of the tree takes small frames: one where it is a leaf, a binary operation or a comma, of which texts have
// most, and else two, since other nodes have a frame of their own.
#[cycle(expr)]
#[tactic(auto, using(crate::proofs::Nodes::on_group))]
#[inline(never)]
fn operand(
    alloc: Global,
    scope: &Scopes,
    role: &Role,
    e: Boxed<Expr>,
) -> Result<Boxed<TypedExpr>, TypeFault>
    ensures { Types e role.now scope.now result }
{
    let Expr {
        offset,
        at: token,
        node,
    } = e.into_inner();
    let spot = Spot { offset, at: token };
    match node {
        ExprNode::Number { value, kind } => number(alloc, scope, role, spot, value, kind),
        ExprNode::Name(word) => name(alloc, scope, role, spot, word),
        ExprNode::Element { array, row, index } => {
            element_of(alloc, scope, role, spot, array, row, index)
        }
        ExprNode::Call { function, args } => call(alloc, scope, role, spot, function, args),
        ExprNode::Group(e) => operand(alloc, scope, role, e),
        ExprNode::Unary { op, e } => unary(alloc, scope, role, spot, op, e),
        ExprNode::Cast { to, e } => cast(alloc, scope, role, spot, to, e),
        ExprNode::Bump { op, e } => bump(alloc, scope, role, spot, op, e),
        ExprNode::Binary { op, left, right } => binary(alloc, scope, role, spot, op, left, right),
        ExprNode::Choice { test, yes, no } => choice(alloc, scope, role, spot, test, yes, no),
        ExprNode::Assign { op, left, right } => assign(alloc, scope, role, spot, op, left, right),
        ExprNode::Comma { left, right } => comma(alloc, scope, role, spot, left, right),
    }
}

/// The typed tree of an expression, or its first fault.
pub fn type_expr(
    alloc: Global,
    scope: &Scopes,
    role: Role,
    e: Boxed<Expr>,
) -> Result<Boxed<TypedExpr>, TypeFault>
    ensures { Types e role scope.now result }
{
    operand(alloc, scope, &role, e)
}
