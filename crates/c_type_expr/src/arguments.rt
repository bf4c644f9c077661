//! What the parameters of a function want of the arguments, one by one.

ghost use Rattle.std.specs.Prelude.{◌≡◌, None};
ghost use Rattle.c_type_expr.specs.Faults.{role_at, rest_of};
ghost use Rattle.c_type_expr.specs.Trees as trees;
ghost use Rattle.c_type_expr.specs.inside.Says.{Says};

use crate::build;
use crate::fault::TypeFault;
use crate::role::Role;
use base::Boxed;
use c_tree::{Slot, TypedExpr};
use std::alloc::Global;

pub fn role_for(slots: &[Slot]) -> Role
    ensures { result ≡ role_at slots.now }
{
    match slots {
        [] => Role::Surplus,
        [Slot::Scalar(_), ..] => Role::Value,
        [Slot::Address { kind, row }, ..] => Role::Array {
            kind: *kind,
            row: *row,
        },
    }
}

pub fn converted_for(
    alloc: Global,
    slots: &[Slot],
    e: Boxed<TypedExpr>,
) -> Result<Boxed<TypedExpr>, TypeFault>
    ensures { Says None (trees.argument slots.now e) result }
{
    match slots {
        [Slot::Scalar(kind), ..] => Ok(build::with_convert(alloc, *kind, e)?),
        _ => Ok(e),
    }
}

pub fn after_first(slots: &[Slot]) -> &[Slot]
    ensures { result.now ≡ rest_of slots.now }
{
    match slots {
        [] => slots,
        [_, rest @ ..] => rest,
    }
}
