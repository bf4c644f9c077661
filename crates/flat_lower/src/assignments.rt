//! The flat code of assignments.

ghost use Rattle.std.specs.Prelude.{◌≡◌, ◌+◌, suc, Some, None, OnOk, IfOk};
ghost use Rattle.c_tree.specs.declared.Place.TheVariants.{Global, Scalar, Array};
ghost use Rattle.flat_lower.specs.declared.side.Side.TheVariants.{Name, Element};
ghost use Rattle.flat_lower.specs.inside.Expressions as expressions;
ghost use Rattle.flat_lower.specs.inside.Expressions.{with_kind, assign_name, old_name, old_element};
ghost use Rattle.flat_lower.specs.inside.Expressions.{assign_element, compound_code, before_right};
ghost use Rattle.flat_lower.specs.inside.Expressions.{after_right};
ghost use Rattle.flat_lower.specs.inside.Emitted.{Adds, shape};

use crate::addressing::put_address;
use crate::emit::{deeper, put_load, put_save, scalar, temp};
use crate::operations::{
    load_op, put_binary, put_converted_here, put_converted_to, put_copy, save_op,
};
use crate::places::Places;
use crate::side::Side;
use base::{Items, Memory};
use c_tree::{BinaryOp, Kind, Place};
use ir_forms::{Arg, FlatStmt};

/// The value in temporary d, to a name.
#[tactic(auto, using(crate::proofs::Emits::nothing))]
fn put_to_name(
    code: &mut Items<FlatStmt>,
    places: &Places,
    place: Place,
    d: u8,
    kind: Kind,
) -> Result<(), Memory>
    ensures { OnOk result (Adds code.old code.new (assign_name places.now place d kind)) }
{
    match place {
        Place::Global(g) => {
            let at = Arg::Const(places.global(g)?);
            put_save(code, save_op(kind), at, Arg::Var(temp(d)))
        }
        Place::Scalar(i) => put_copy(code, scalar(i)?, temp(d)),
        Place::Array(_) => Ok(()),
    }
}

// The old value of a global.
fn put_old_global(
    code: &mut Items<FlatStmt>,
    places: &Places,
    g: u32,
    d: u8,
    at: Kind,
    kind: Kind,
) -> Result<(), Memory>
    ensures { OnOk result (Adds code.old code.new (old_name places.now (Global g) d at kind)) }
{
    put_load(code, temp(d), load_op(kind), Arg::Const(places.global(g)?))?;
    put_converted_here(code, Some(kind), at, temp(d))?;
    Ok(())
}

/// The old value of a name, as a value of the type of the operation.
#[tactic(auto, using(crate::proofs::Emits::nothing))]
fn put_old_name(
    code: &mut Items<FlatStmt>,
    places: &Places,
    place: Place,
    d: u8,
    at: Kind,
    kind: Kind,
) -> Result<(), Memory>
    ensures { OnOk result (Adds code.old code.new (old_name places.now place d at kind)) }
{
    match place {
        Place::Global(g) => put_old_global(code, places, g, d, at, kind),
        Place::Scalar(i) => put_converted_to(code, Some(kind), at, temp(d), scalar(i)?),
        Place::Array(_) => Ok(()),
    }
}

/// The operation, and the conversion of what it gives.
fn put_compound(
    code: &mut Items<FlatStmt>,
    op: BinaryOp,
    d: u8,
    y: u8,
    at: Kind,
    kind: Kind,
) -> Result<(), Memory>
    ensures { OnOk result (Adds code.old code.new (compound_code op d y at kind)) }
{
    put_binary(code, op, at, temp(d), temp(y))?;
    put_converted_here(code, Some(at), kind, temp(d))?;
    Ok(())
}

// The old value of an element, by its address.
fn put_old_element(
    code: &mut Items<FlatStmt>,
    places: &Places,
    array: Place,
    d: u8,
    at: Kind,
    kind: Kind,
) -> Result<(), Memory>
    ensures { OnOk result (Adds code.old code.new (old_element places.now array d at kind)) }
{
    let next = deeper(d)?;
    put_address(code, places, array, kind, temp(next), temp(d))?;
    put_load(code, temp(d), load_op(kind), Arg::Var(temp(next)))?;
    put_converted_here(code, Some(kind), at, temp(d))?;
    Ok(())
}

// A value into an element, by its address.
fn put_to_element(code: &mut Items<FlatStmt>, d: u8, kind: Kind) -> Result<(), Memory>
    ensures { OnOk result (Adds code.old code.new (assign_element d kind)) }
{
    let next = deeper(d)?;
    put_save(code, save_op(kind), Arg::Var(temp(d)), Arg::Var(temp(next)))?;
    put_copy(code, temp(d), temp(next))?;
    Ok(())
}

// The result of an operation into a name.
fn put_compound_to_name(
    code: &mut Items<FlatStmt>,
    places: &Places,
    op: BinaryOp,
    at: Kind,
    d: u8,
    place: Place,
    kind: Kind,
) -> Result<(), Memory>
    ensures { OnOk result (Adds code.old code.new
        (after_right places.now (Some op) at d (shape (Name place)) kind)) }
{
    let next = deeper(d)?;
    put_compound(code, op, d, next, at, kind)?;
    put_to_name(code, places, place, d, kind)?;
    Ok(())
}

// The result of an operation into an element.
fn put_compound_to_element(
    code: &mut Items<FlatStmt>,
    places: &Places,
    op: BinaryOp,
    at: Kind,
    d: u8,
    array: Place,
    kind: Kind,
) -> Result<(), Memory>
    ensures { OnOk result (Adds code.old code.new
        (after_right places.now (Some op) at d (shape (Element array)) kind)) }
{
    let next = deeper(d)?;
    put_compound(code, op, d, deeper(next)?, at, kind)?;
    put_save(code, save_op(kind), Arg::Var(temp(next)), Arg::Var(temp(d)))?;
    Ok(())
}

// What comes before the right side of an assignment.
#[tactic(auto, using(crate::proofs::Emits::nothing))]
fn put_before_at(
    code: &mut Items<FlatStmt>,
    places: &Places,
    op: Option<BinaryOp>,
    at: Kind,
    d: u8,
    side: Side,
    kind: Kind,
) -> Result<(), Memory>
    ensures { OnOk result (Adds code.old code.new
        (before_right places.now op at d (shape side) kind)) }
{
    match op {
        None => match side {
            Side::Name(_) => Ok(()),
            Side::Element(array) => put_address(code, places, array, kind, temp(d), temp(d)),
            Side::Neither => Ok(()),
        },
        Some(_) => match side {
            Side::Name(place) => put_old_name(code, places, place, d, at, kind),
            Side::Element(array) => put_old_element(code, places, array, d, at, kind),
            Side::Neither => Ok(()),
        },
    }
}

/// What follows the index of a left side, where it has one, before the right side.
#[tactic(auto, using(crate::proofs::Emits::nothing))]
pub fn put_before(
    code: &mut Items<FlatStmt>,
    places: &Places,
    op: Option<BinaryOp>,
    at: Kind,
    d: u8,
    side: Side,
    kind: Option<Kind>,
) -> Result<(), Memory>
    ensures { OnOk result (Adds code.old code.new
        (with_kind kind (before_right places.now op at d (shape side)))) }
{
    match kind {
        None => Ok(()),
        Some(kind) => put_before_at(code, places, op, at, d, side, kind),
    }
}

/// The temporary of the right side.
pub fn right_at(op: Option<BinaryOp>, d: u8, side: Side) -> Result<u8, Memory>
    ensures { IfOk result (λ r. r ≡ expressions.right_at op d (shape side)) }
{
    match op {
        None => match side {
            Side::Name(_) => Ok(d),
            Side::Element(_) => deeper(d),
            Side::Neither => Ok(d),
        },
        Some(_) => match side {
            Side::Name(_) => deeper(d),
            Side::Element(_) => deeper(deeper(d)?),
            Side::Neither => Ok(d),
        },
    }
}

// What comes after the right side of an assignment.
#[tactic(auto, using(crate::proofs::Emits::nothing))]
fn put_after_at(
    code: &mut Items<FlatStmt>,
    places: &Places,
    op: Option<BinaryOp>,
    at: Kind,
    d: u8,
    side: Side,
    kind: Kind,
) -> Result<(), Memory>
    ensures { OnOk result (Adds code.old code.new
        (after_right places.now op at d (shape side) kind)) }
{
    match op {
        None => match side {
            Side::Name(place) => put_to_name(code, places, place, d, kind),
            Side::Element(_) => put_to_element(code, d, kind),
            Side::Neither => Ok(()),
        },
        Some(op) => match side {
            Side::Name(place) => put_compound_to_name(code, places, op, at, d, place, kind),
            Side::Element(array) => put_compound_to_element(code, places, op, at, d, array, kind),
            Side::Neither => Ok(()),
        },
    }
}

/// What follows the right side.
#[tactic(auto, using(crate::proofs::Emits::nothing))]
pub fn put_after(
    code: &mut Items<FlatStmt>,
    places: &Places,
    op: Option<BinaryOp>,
    at: Kind,
    d: u8,
    side: Side,
    kind: Option<Kind>,
) -> Result<(), Memory>
    ensures { OnOk result (Adds code.old code.new
        (with_kind kind (after_right places.now op at d (shape side)))) }
{
    match kind {
        None => Ok(()),
        Some(kind) => put_after_at(code, places, op, at, d, side, kind),
    }
}
