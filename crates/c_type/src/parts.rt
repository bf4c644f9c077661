//! Full expressions that may be left out, and statements that are one.

ghost use Rattle.std.specs.Prelude.{◌≡◌};
ghost use Rattle.c_tree.specs.declared.tree.StmtNode.TheVariants as node;
ghost use Rattle.c_type_expr.specs.inside.Says.{Says};
ghost use Rattle.c_type.specs.States as states;
ghost use Rattle.c_type.specs.LeftOut as left_out;
ghost use Rattle.c_type.specs.Statements.{part};
ghost use Rattle.c_type.specs.inside.Runs.{Runs};

use crate::state::{Around, State};
use base::Boxed;
use c_tree::{Expr, Kind, TypedExpr, TypedStmt};
use c_type_expr::{Role, Scopes, TypeFault, full, with_convert};
use std::alloc::Global;

pub fn full_if(
    alloc: Global,
    names: &Scopes,
    role: Role,
    e: Option<Boxed<Expr>>,
) -> Result<Option<Boxed<TypedExpr>>, TypeFault>
    ensures { Says (left_out.full_if e role names.now) (left_out.tree_if e names.now) result }
{
    match e {
        None => Ok(None),
        Some(e) => {
            let e = full(alloc, names, role, e)?;
            Ok(Some(e))
        }
    }
}

/// A value converted to a type, where there is one.
pub fn value_to(
    alloc: Global,
    names: &Scopes,
    kind: Kind,
    e: Option<Boxed<Expr>>,
) -> Result<Option<Boxed<TypedExpr>>, TypeFault>
    ensures { Says (left_out.full_if e Role.Value names.now) (left_out.value_of e kind names.now)
        result }
{
    match e {
        None => Ok(None),
        Some(e) => {
            let e = full(alloc, names, Role::Value, e)?;
            let e = with_convert(alloc, kind, e)?;
            Ok(Some(e))
        }
    }
}

/// An expression statement, or one of a semicolon alone.
#[tactic(auto, using(crate::proofs::Nodes::on_plain))]
pub fn plain(
    alloc: Global,
    state: &State,
    around: Around,
    offset: u32,
    e: Option<Boxed<Expr>>,
) -> Result<TypedStmt, TypeFault>
    ensures { Runs (part (states.at offset (node.Plain e))) around state.now state.now result }
{
    let e = full_if(alloc, &state.names, Role::Free, e)?;
    Ok(TypedStmt::Plain(e))
}
