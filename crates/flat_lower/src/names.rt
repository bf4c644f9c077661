//! The flat code of names and elements.

ghost use Rattle.std.specs.Prelude.{◌≡◌, suc, Some, false, OnOk};
ghost use Rattle.c_tree.specs.declared.Place.TheVariants.{Global, Scalar, Array};
ghost use Rattle.flat_lower.specs.inside.Operations as operations;
ghost use Rattle.flat_lower.specs.inside.Expressions.{with_kind, global_code, name_code, element_code};
ghost use Rattle.flat_lower.specs.inside.Expressions.{joined_by};
ghost use Rattle.flat_lower.specs.inside.Objects.{row_of};
ghost use Rattle.flat_lower.specs.inside.Emitted.{Adds};

use crate::addressing::{put_address, put_whole};
use crate::emit::{put_let, put_load, scalar, temp};
use crate::operations::{load_op, put_copy};
use crate::places::Places;
use crate::powers::put_scaled;
use base::{Items, Memory};
use c_tree::{Kind, Place};
use ir_forms::{Arg, FlatStmt};
use trips_isa::Op;

// The value of a global.
fn put_global_value(
    code: &mut Items<FlatStmt>,
    places: &Places,
    g: u32,
    to: u16,
    kind: Kind,
) -> Result<(), Memory>
    ensures { OnOk result (Adds code.old code.new (global_code places.now false g to kind)) }
{
    let at = places.global(g)?;
    put_load(code, to, load_op(kind), Arg::Const(at))
}

// The value of a global, or its address where it is an array.
fn put_global(
    code: &mut Items<FlatStmt>,
    places: &Places,
    g: u32,
    to: u16,
    kind: Kind,
) -> Result<(), Memory>
    ensures { OnOk result (Adds code.old code.new (name_code places.now (Global g) to kind)) }
{
    if places.is_array(g) {
        put_whole(code, places, Place::Global(g), to)
    } else {
        put_global_value(code, places, g, to, kind)
    }
}

// The value of a scalar.
fn put_scalar(
    code: &mut Items<FlatStmt>,
    places: &Places,
    i: u32,
    to: u16,
    kind: Kind,
) -> Result<(), Memory>
    ensures { OnOk result (Adds code.old code.new (name_code places.now (Scalar i) to kind)) }
{
    let x = scalar(i)?;
    put_copy(code, to, x)
}

// The value of a name.
fn put_name_of(
    code: &mut Items<FlatStmt>,
    places: &Places,
    place: Place,
    to: u16,
    kind: Kind,
) -> Result<(), Memory>
    ensures { OnOk result (Adds code.old code.new (name_code places.now place to kind)) }
{
    match place {
        Place::Global(g) => put_global(code, places, g, to, kind),
        Place::Scalar(i) => put_scalar(code, places, i, to, kind),
        Place::Array(a) => put_whole(code, places, Place::Array(a), to),
    }
}

/// A scalar's value, or the address that an array's name stands for.
#[tactic(auto, using(crate::proofs::Emits::nothing))]
pub fn put_name(
    code: &mut Items<FlatStmt>,
    places: &Places,
    kind: Option<Kind>,
    place: Place,
    to: u16,
) -> Result<(), Memory>
    ensures { OnOk result (Adds code.old code.new (with_kind kind
        (name_code places.now place to))) }
{
    match kind {
        None => Ok(()),
        Some(kind) => put_name_of(code, places, place, to, kind),
    }
}

// The value of an element, by its index in a temporary.
fn put_element_of(
    code: &mut Items<FlatStmt>,
    places: &Places,
    array: Place,
    d: u8,
    kind: Kind,
) -> Result<(), Memory>
    ensures { OnOk result (Adds code.old code.new (element_code places.now array d kind)) }
{
    put_address(code, places, array, kind, temp(d), temp(d))?;
    put_load(code, temp(d), load_op(kind), Arg::Var(temp(d)))?;
    Ok(())
}

/// The element whose index stands in temporary d.
#[tactic(auto, using(crate::proofs::Emits::nothing))]
pub fn put_element(
    code: &mut Items<FlatStmt>,
    places: &Places,
    kind: Option<Kind>,
    array: Place,
    d: u8,
) -> Result<(), Memory>
    ensures { OnOk result (Adds code.old code.new (with_kind kind
        (element_code places.now array d))) }
{
    match kind {
        None => Ok(()),
        Some(kind) => put_element_of(code, places, array, d, kind),
    }
}

// The index of a row's first element, and the index in the row, by the second size.
fn put_joined_by(code: &mut Items<FlatStmt>, size: u32, d: u8, next: u8) -> Result<(), Memory>
    requires { next ≡ suc d }
    ensures { OnOk result (Adds code.old code.new (joined_by (Some size) d)) }
{
    put_scaled(code, size as u64, temp(d))?;
    put_let(
        code,
        temp(d),
        Op::Add,
        Arg::Var(temp(d)),
        Arg::Var(temp(next)),
    )?;
    Ok(())
}

/// The indexes in temporaries d and `next`, the one behind it, make one among all elements.
#[tactic(auto, using(crate::proofs::Emits::nothing))]
pub fn put_joined(
    code: &mut Items<FlatStmt>,
    places: &Places,
    array: Place,
    d: u8,
    next: u8,
) -> Result<(), Memory>
    requires { next ≡ suc d }
    ensures { OnOk result (Adds code.old code.new (joined_by (row_of places.now array) d)) }
{
    match places.row(array) {
        None => Ok(()),
        Some(size) => put_joined_by(code, size, d, next),
    }
}
