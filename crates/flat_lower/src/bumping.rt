//! The flat code of `++` and `--`.

ghost use Rattle.std.specs.Prelude.{◌≡◌, true, false, OnOk};
ghost use Rattle.c_tree.specs.declared.Place.TheVariants.{Global, Scalar, Array};
ghost use Rattle.flat_lower.specs.inside.Expressions.{with_kind, bump_scalar, bump_memory, bump_name};
ghost use Rattle.flat_lower.specs.inside.Expressions.{bump_element, bump_code};
ghost use Rattle.flat_lower.specs.inside.Emitted.{Adds, shape};

use crate::addressing::put_address;
use crate::emit::{put_load, put_save, scalar, scratch, temp};
use crate::operations::{is_before, load_op, put_bumped, put_copy, save_op};
use crate::places::Places;
use crate::side::Side;
use base::{Items, Memory};
use c_tree::{BumpOp, Kind, Place};
use ir_forms::{Arg, FlatStmt};

// `++` and `--` before a scalar.
fn put_scalar_before(
    code: &mut Items<FlatStmt>,
    op: BumpOp,
    i: u16,
    d: u8,
    kind: Kind,
) -> Result<(), Memory>
    ensures { OnOk result (Adds code.old code.new (bump_scalar op true i d kind)) }
{
    put_bumped(code, op, kind, i, i)?;
    put_copy(code, temp(d), i)?;
    Ok(())
}

// `++` and `--` after a scalar.
fn put_scalar_after(
    code: &mut Items<FlatStmt>,
    op: BumpOp,
    i: u16,
    d: u8,
    kind: Kind,
) -> Result<(), Memory>
    ensures { OnOk result (Adds code.old code.new (bump_scalar op false i d kind)) }
{
    put_copy(code, temp(d), i)?;
    put_bumped(code, op, kind, i, i)?;
    Ok(())
}

// `++` and `--` before an object in memory.
fn put_memory_before(
    code: &mut Items<FlatStmt>,
    op: BumpOp,
    at: Arg,
    d: u8,
    kind: Kind,
) -> Result<(), Memory>
    ensures { OnOk result (Adds code.old code.new (bump_memory op true at d kind)) }
{
    put_load(code, temp(d), load_op(kind), at)?;
    put_bumped(code, op, kind, temp(d), temp(d))?;
    put_save(code, save_op(kind), at, Arg::Var(temp(d)))?;
    Ok(())
}

// `++` and `--` after an object in memory.
fn put_memory_after(
    code: &mut Items<FlatStmt>,
    op: BumpOp,
    at: Arg,
    d: u8,
    kind: Kind,
) -> Result<(), Memory>
    ensures { OnOk result (Adds code.old code.new (bump_memory op false at d kind)) }
{
    put_load(code, temp(d), load_op(kind), at)?;
    put_bumped(code, op, kind, scratch(1), temp(d))?;
    put_save(code, save_op(kind), at, Arg::Var(scratch(1)))?;
    Ok(())
}

// `++` and `--` on an object in memory, by its address.
fn put_in_memory(
    code: &mut Items<FlatStmt>,
    op: BumpOp,
    is_before: bool,
    at: Arg,
    d: u8,
    kind: Kind,
) -> Result<(), Memory>
    ensures { OnOk result (Adds code.old code.new (bump_memory op is_before at d kind)) }
{
    if is_before {
        put_memory_before(code, op, at, d, kind)
    } else {
        put_memory_after(code, op, at, d, kind)
    }
}

// `++` and `--` on a scalar.
fn put_in_scalar(
    code: &mut Items<FlatStmt>,
    op: BumpOp,
    is_before: bool,
    i: u32,
    d: u8,
    kind: Kind,
) -> Result<(), Memory>
    ensures { OnOk result (Adds code.old code.new (bump_scalar op is_before i d kind)) }
{
    let x = scalar(i)?;
    if is_before {
        put_scalar_before(code, op, x, d, kind)
    } else {
        put_scalar_after(code, op, x, d, kind)
    }
}

// `++` and `--` on a name.
#[tactic(auto, using(crate::proofs::Emits::nothing))]
fn put_at_name(
    code: &mut Items<FlatStmt>,
    places: &Places,
    op: BumpOp,
    place: Place,
    d: u8,
    kind: Kind,
) -> Result<(), Memory>
    ensures { OnOk result (Adds code.old code.new (bump_name places.now op place d kind)) }
{
    match place {
        Place::Global(g) => {
            put_in_memory(
                code,
                op,
                is_before(op),
                Arg::Const(places.global(g)?),
                d,
                kind,
            )
        }
        Place::Scalar(i) => put_in_scalar(code, op, is_before(op), i, d, kind),
        Place::Array(_) => Ok(()),
    }
}

// `++` and `--` on an element.
fn put_at_element(
    code: &mut Items<FlatStmt>,
    places: &Places,
    op: BumpOp,
    array: Place,
    d: u8,
    kind: Kind,
) -> Result<(), Memory>
    ensures { OnOk result (Adds code.old code.new (bump_element places.now op array d kind)) }
{
    put_address(code, places, array, kind, scratch(0), temp(d))?;
    put_in_memory(code, op, is_before(op), Arg::Var(scratch(0)), d, kind)?;
    Ok(())
}

// `++` and `--`.
#[tactic(auto, using(crate::proofs::Emits::nothing))]
fn put_at(
    code: &mut Items<FlatStmt>,
    places: &Places,
    op: BumpOp,
    d: u8,
    side: Side,
    kind: Kind,
) -> Result<(), Memory>
    ensures { OnOk result (Adds code.old code.new (bump_code places.now op d (shape side) kind)) }
{
    match side {
        Side::Name(place) => put_at_name(code, places, op, place, d, kind),
        Side::Element(array) => put_at_element(code, places, op, array, d, kind),
        Side::Neither => Ok(()),
    }
}

/// What follows the index of a left side, where it has one.
#[tactic(auto, using(crate::proofs::Emits::nothing))]
pub fn put_bump(
    code: &mut Items<FlatStmt>,
    places: &Places,
    op: BumpOp,
    d: u8,
    side: Side,
    kind: Option<Kind>,
) -> Result<(), Memory>
    ensures { OnOk result (Adds code.old code.new
        (with_kind kind (bump_code places.now op d (shape side)))) }
{
    match kind {
        None => Ok(()),
        Some(kind) => put_at(code, places, op, d, side, kind),
    }
}
