//! What expressions are as left sides.

ghost use Rattle.std.specs.Prelude.{◌≡◌};
ghost use Rattle.flat_lower.specs.inside.Tree as tree;
ghost use Rattle.flat_lower.specs.inside.TreeViews.{expr_of};
ghost use Rattle.flat_lower.specs.inside.Emitted.{side_in};

use crate::side::Side;
use c_tree::{Kind, TypedExpr, TypedNode};

/// The kind of an expression, none where it gives no value.
#[tactic(auto, using(crate::proofs::EmitTrees::kind_of_expr))]
pub fn kind_of(e: &TypedExpr) -> Option<Kind>
    ensures { result ≡ tree.kind_of (expr_of e.now) }
{
    e.kind
}

/// What an expression is as a left side.
pub fn side_of(e: &TypedExpr) -> Side
    ensures { result ≡ side_in (expr_of e.now) }
{
    match &e.node {
        TypedNode::Name(place) => Side::Name(*place),
        TypedNode::Element { array, .. } => Side::Element(*array),
        _ => Side::Neither,
    }
}
