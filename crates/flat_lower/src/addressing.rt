//! The flat code of addresses.

ghost use Rattle.std.specs.Prelude.{◌<◌, OnOk};
ghost use Rattle.c_tree.specs.declared.Place.TheVariants.{Global, Scalar, Array};
ghost use Rattle.flat_lower.specs.inside.Objects.{based, address_by, address_code, whole_code};
ghost use Rattle.flat_lower.specs.inside.Emitted.{Adds};

use crate::emit::{put_frame, put_let, scalar, scratch};
use crate::operations::shift_of;
use crate::places::Places;
use base::{Items, Memory};
use c_tree::{Kind, Place};
use ir_forms::{Arg, FlatStmt};
use trips_isa::Op;

// The address of an element of a global, by the word of its index in a temporary.
fn put_based_global(
    code: &mut Items<FlatStmt>,
    places: &Places,
    g: u32,
    to: u16,
    x: u16,
) -> Result<(), Memory>
    ensures { OnOk result (Adds code.old code.new (based places.now (Global g) to x)) }
{
    let at = places.global(g)?;
    put_let(code, to, Op::Add, Arg::Var(x), Arg::Const(at))
}

// The address of an element of the array that a parameter stands for.
fn put_based_scalar(
    code: &mut Items<FlatStmt>,
    places: &Places,
    i: u32,
    to: u16,
    x: u16,
) -> Result<(), Memory>
    ensures { OnOk result (Adds code.old code.new (based places.now (Scalar i) to x)) }
{
    let base = scalar(i)?;
    put_let(code, to, Op::Add, Arg::Var(x), Arg::Var(base))
}

// The address of an element of a local array.
fn put_based_array(
    code: &mut Items<FlatStmt>,
    places: &Places,
    a: u32,
    to: u16,
    x: u16,
) -> Result<(), Memory>
    ensures { OnOk result (Adds code.old code.new (based places.now (Array a) to x)) }
{
    put_frame(code, scratch(1), places.array(a)?)?;
    put_let(code, to, Op::Add, Arg::Var(x), Arg::Var(scratch(1)))?;
    Ok(())
}

/// The address at an offset in a variable.
fn put_based(
    code: &mut Items<FlatStmt>,
    places: &Places,
    place: Place,
    to: u16,
    x: u16,
) -> Result<(), Memory>
    ensures { OnOk result (Adds code.old code.new (based places.now place to x)) }
{
    match place {
        Place::Global(g) => put_based_global(code, places, g, to, x),
        Place::Scalar(i) => put_based_scalar(code, places, i, to, x),
        Place::Array(a) => put_based_array(code, places, a, to, x),
    }
}

// An index times the size of an element.
fn put_shifted(
    code: &mut Items<FlatStmt>,
    places: &Places,
    shift: u64,
    place: Place,
    to: u16,
    x: u16,
) -> Result<(), Memory>
    requires { 0 < shift }
    ensures { OnOk result (Adds code.old code.new (address_by shift places.now place to x)) }
{
    put_let(code, to, Op::Sll, Arg::Var(x), Arg::Const(shift))?;
    put_based(code, places, place, to, to)?;
    Ok(())
}

/// The address of the element whose index stands in x.
pub fn put_address(
    code: &mut Items<FlatStmt>,
    places: &Places,
    place: Place,
    kind: Kind,
    to: u16,
    x: u16,
) -> Result<(), Memory>
    ensures { OnOk result (Adds code.old code.new (address_code places.now place kind to x)) }
{
    let shift = shift_of(kind);
    if shift == 0 {
        put_based(code, places, place, to, x)
    } else {
        put_shifted(code, places, shift, place, to, x)
    }
}

/// The address of an object that an array's name stands for.
pub fn put_whole(
    code: &mut Items<FlatStmt>,
    places: &Places,
    place: Place,
    to: u16,
) -> Result<(), Memory>
    ensures { OnOk result (Adds code.old code.new (whole_code places.now place to)) }
{
    match place {
        Place::Global(g) => {
            put_let(
                code,
                to,
                Op::Mov,
                Arg::Const(places.global(g)?),
                Arg::Const(0),
            )
        }
        Place::Scalar(i) => put_let(code, to, Op::Mov, Arg::Var(scalar(i)?), Arg::Const(0)),
        Place::Array(a) => put_frame(code, to, places.array(a)?),
    }
}
