//! Leaves of expressions, and what may be written to.

ghost use Rattle.std.specs.Prelude.{◌≡◌};
ghost use Rattle.c_tree.specs.declared.tree.ExprNode.TheVariants as node;
ghost use Rattle.c_type_expr.specs.Faults as faults;
ghost use Rattle.c_type_expr.specs.inside.Says.{Types};
ghost use Rattle.c_type_expr.specs.Roles.{at};

use crate::build;
use crate::fault::TypeFault;
use crate::found::{name_at, value_at};
use crate::role::Role;
use crate::scopes::Scopes;
use crate::spot::Spot;
use base::Boxed;
use c_tree::{Expr, ExprNode, Kind, TypedExpr, TypedNode, Word};
use std::alloc::Global;

/// Whether an expression is a name or an element, in any groups.
pub fn is_place(e: &Expr) -> bool
    ensures { result ≡ faults.is_place e.now }
{
    match &e.node {
        ExprNode::Name(_) => true,
        ExprNode::Element { .. } => true,
        ExprNode::Group(e) => is_place(e.get()),
        ExprNode::Number { .. } => false,
        ExprNode::Call { .. } => false,
        ExprNode::Unary { .. } => false,
        ExprNode::Cast { .. } => false,
        ExprNode::Bump { .. } => false,
        ExprNode::Binary { .. } => false,
        ExprNode::Choice { .. } => false,
        ExprNode::Assign { .. } => false,
        ExprNode::Comma { .. } => false,
    }
}

/// What a left side is wanted for.
pub fn left_role(is_place: bool) -> Role
    ensures { result ≡ faults.left_role is_place }
{
    if is_place { Role::Written } else { Role::Value }
}

/// The typed tree of a name, or its fault.
#[tactic(auto, using(crate::proofs::Nodes::on_name))]
#[inline(always)]
pub fn name(
    alloc: Global,
    scope: &Scopes,
    role: &Role,
    spot: Spot,
    word: Word,
) -> Result<Boxed<TypedExpr>, TypeFault>
    ensures { Types (at spot (node.Name word)) role.now scope.now result }
{
    let e = name_at(scope.look_up(&word), *role, spot)?;
    Ok(Boxed::new(alloc, e)?)
}

/// The typed tree of a number, or its fault.
#[tactic(auto, using(crate::proofs::Nodes::on_number))]
#[inline(always)]
pub fn number(
    alloc: Global,
    scope: &Scopes,
    role: &Role,
    spot: Spot,
    value: u64,
    kind: Kind,
) -> Result<Boxed<TypedExpr>, TypeFault>
    ensures { Types (at spot (node.Number value kind)) role.now scope.now result }
{
    value_at(*role, spot.offset)?;
    Ok(build::boxed(alloc, spot.at, Some(kind), TypedNode::Number(value))?)
}
