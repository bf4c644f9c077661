//! The statements that jump (C17 6.8.6): `break`, `continue` and `return`.

ghost use Rattle.c_tree.specs.declared.tree.StmtNode.TheVariants as node;
ghost use Rattle.c_type_expr.specs.Blames.{first};
ghost use Rattle.c_type_expr.specs.inside.Says.{Says};
ghost use Rattle.c_type.specs.States as states;
ghost use Rattle.c_type.specs.LeftOut as left_out;
ghost use Rattle.c_type.specs.Statements.{part, return_fault, return_tree};
ghost use Rattle.c_type.specs.inside.Runs.{Runs};

use crate::parts::{full_if, value_to};
use crate::state::{Around, State};
use base::Boxed;
use c_tree::{Expr, TypedStmt};
use c_type_expr::{Role, TypeFault};
use std::alloc::Global;

fn return_stmt(
    alloc: Global,
    state: &State,
    offset: u32,
    e: Option<Boxed<Expr>>,
) -> Result<TypedStmt, TypeFault>
    ensures { Says (first (left_out.full_if e Role.Value state.now.names)
        (return_fault state.now.result e offset))
        (TypedStmt.Return (return_tree state.now.result e state.now.names)) result }
{
    match state.result {
        None => {
            let found = e.is_some();
            let e = full_if(alloc, &state.names, Role::Value, e)?;
            if found {
                Err(TypeFault::Mismatch(offset))
            } else {
                Ok(TypedStmt::Return(e))
            }
        }
        Some(kind) => {
            let missing = e.is_none();
            let e = value_to(alloc, &state.names, kind, e)?;
            if missing {
                Err(TypeFault::Mismatch(offset))
            } else {
                Ok(TypedStmt::Return(e))
            }
        }
    }
}

#[tactic(auto, using(crate::proofs::Nodes::on_return))]
pub fn give(
    alloc: Global,
    state: &State,
    around: Around,
    offset: u32,
    e: Option<Boxed<Expr>>,
) -> Result<TypedStmt, TypeFault>
    ensures { Runs (part (states.at offset (node.Return e))) around state.now state.now result }
{
    return_stmt(alloc, state, offset, e)
}

#[tactic(auto, using(crate::proofs::Nodes::on_break))]
pub fn break_stmt(state: &State, around: Around, offset: u32) -> Result<TypedStmt, TypeFault>
    ensures { Runs (part (states.at offset node.Break)) around state.now state.now result }
{
    if around.may_break {
        Ok(TypedStmt::Break)
    } else {
        Err(TypeFault::Mismatch(offset))
    }
}

#[tactic(auto, using(crate::proofs::Nodes::on_continue))]
pub fn continue_stmt(state: &State, around: Around, offset: u32) -> Result<TypedStmt, TypeFault>
    ensures { Runs (part (states.at offset node.Continue)) around state.now state.now result }
{
    if around.may_continue {
        Ok(TypedStmt::Continue)
    } else {
        Err(TypeFault::Mismatch(offset))
    }
}
