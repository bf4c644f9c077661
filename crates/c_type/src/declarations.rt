//! Local declarations.

ghost use Rattle.std.specs.Prelude.{◌≡◌, ◌<◌, ◌*◌, length, nat_le};
ghost use Rattle.std.specs.Option.{option_copied};
ghost use Rattle.c_tree.specs.Limits.{most_object_bytes};
ghost use Rattle.c_tree.specs.declared.tree.StmtNode.TheVariants as node;
ghost use Rattle.c_constant.specs.Kinds as kinds;
ghost use Rattle.c_type_expr.specs.Blames.{first};
ghost use Rattle.c_type_expr.specs.Constants as constants;
ghost use Rattle.c_type_expr.specs.inside.Says.{Says};
ghost use Rattle.c_type.specs.States as states;
ghost use Rattle.c_type.specs.LeftOut as left_out;
ghost use Rattle.c_type.specs.Declarations as declarations;
ghost use Rattle.c_type.specs.inside.Declarations as inside_declarations;
ghost use Rattle.c_type.specs.Statements.{part};
ghost use Rattle.c_type.specs.inside.Runs.{Runs, Moves, Adds};

use crate::counts::{counted, short};
use crate::parts::value_to;
use crate::state::{Around, State};
use base::Boxed;
use c_constant::bytes;
use c_tree::{
    ArraySize, Expr, Kind, MOST_OBJECT_BYTES, MOST_SCALARS, Place, Slot, TypedArray, TypedStmt,
    Word,
};
use c_type_expr::{Meaning, Scopes, TypeFault, size_length};
use std::alloc::Global;

pub fn is_end(found: Option<&Meaning>) -> bool
    ensures { result ≡ states.is_end (option_copied found.entry) }
{
    match found {
        Some(Meaning::EndOfFile) => true,
        _ => false,
    }
}

/// Whether the innermost block may not declare a name. Most are new: they are searched for once.
pub fn is_taken(names: &Scopes, name: &Word) -> bool
    ensures { result ≡ states.is_taken names.now name.now }
{
    match names.look_up(name) {
        None => false,
        Some(Meaning::EndOfFile) => true,
        Some(_) => names.is_here(name),
    }
}

pub fn twice(names: &Scopes, name: &Word, offset: u32) -> Result<(), TypeFault>
    ensures { Says (declarations.twice_fault names.now name.now offset) tt result }
{
    if is_taken(names, name) {
        Err(TypeFault::Twice(offset))
    } else {
        Ok(())
    }
}

/// How many rows the sizes of a local array give, 1 where it has one size, and how long each is.
fn sizes(names: &Scopes, size: &ArraySize, offset: u32) -> Result<(u64, u64), TypeFault>
    ensures { Says (declarations.sizes_fault size.now offset names.now)
        (declarations.rows_of size.now, states.length_in size.now) result }
{
    match size {
        ArraySize::Scalar => Err(TypeFault::Mismatch(offset)),
        ArraySize::Open => Err(TypeFault::Mismatch(offset)),
        ArraySize::Sized(size) => {
            let length = size_length(names, size.get())?;
            Ok((1, length))
        }
        ArraySize::Rows { rows, size } => match rows {
            None => Err(TypeFault::Mismatch(offset)),
            Some(rows) => {
                let rows = size_length(names, rows.get())?;
                let length = size_length(names, size.get())?;
                Ok((rows, length))
            }
        },
    }
}

/// The second size of an array that has so long rows, where it has two.
pub fn row_in(size: &ArraySize, length: u32) -> Option<u32>
    ensures { result ≡ states.row_if size.now length }
{
    match size {
        ArraySize::Rows { .. } => Some(length),
        _ => None,
    }
}

/// Whether so many elements of a kind have no more bytes than an object may have.
#[tactic(auto, using(crate::proofs::Rows::as_quotient))]
fn fits_object(elements: u64, kind: Kind) -> bool
    ensures { result ≡ nat_le (elements * kinds.bytes kind) most_object_bytes }
{
    elements <= MOST_OBJECT_BYTES / bytes(kind) as u64
}

/// How many elements an array has that may be declared, and its second size.
fn array_length(
    names: &Scopes,
    size: &ArraySize,
    kind: Kind,
    name: &Word,
    offset: u32,
) -> Result<(u32, Option<u32>), TypeFault>
    ensures { Says (first (declarations.sizes_fault size.now offset names.now)
        (declarations.array_fault (declarations.extent size.now) kind name.now offset names.now))
        (declarations.extent size.now, states.row_in size.now) result }
{
    let (rows, length) = sizes(names, size, offset)?;
    twice(names, name, offset)?;
    let Some(all) = rows.checked_mul(length) else {
        return Err(TypeFault::TooLarge(offset));
    };
    if !fits_object(all, kind) {
        return Err(TypeFault::TooLarge(offset));
    }
    let length = short(length)?;
    Ok((all as u32, row_in(size, length)))
}

/// The place of a scalar that may be declared.
fn scalar_place(state: &State, name: &Word, offset: u32) -> Result<u32, TypeFault>
    ensures { Says (declarations.scalar_fault name.now offset state.now) (length state.now.scalars)
        result }
{
    twice(&state.names, name, offset)?;
    let place = state.scalars.len();
    if (place as u64) < MOST_SCALARS {
        Ok(place as u32)
    } else {
        Err(TypeFault::TooManyScalars(offset))
    }
}

pub fn add_scalar(
    alloc: Global,
    state: &mut State,
    kind: Kind,
    name: Word,
    place: u32,
) -> Result<(), TypeFault>
    requires { place ≡ length state.old.scalars }
    ensures { Adds (states.with_scalar kind name state.old) state.new result }
{
    state
        .names
        .declare(alloc, name, Meaning::Scalar(kind, Place::Scalar(place)))?;
    state.scalars.push(Slot::Scalar(kind))?;
    Ok(())
}

pub fn add_address(
    alloc: Global,
    state: &mut State,
    kind: Kind,
    row: Option<u32>,
    name: Word,
    place: u32,
) -> Result<(), TypeFault>
    requires { place ≡ length state.old.scalars }
    ensures { Adds (states.with_address kind row name state.old) state.new result }
{
    let meaning = Meaning::Array {
        kind,
        row,
        place: Place::Scalar(place),
    };
    state.names.declare(alloc, name, meaning)?;
    state.scalars.push(Slot::Address { kind, row })?;
    Ok(())
}

fn add_array(
    alloc: Global,
    state: &mut State,
    array: TypedArray,
    name: Word,
    place: u32,
) -> Result<(), TypeFault>
    requires { place ≡ length state.old.arrays }
    ensures { Adds (states.with_array array.kind array.row name array.length state.old) state.new
        result }
{
    let meaning = Meaning::Array {
        kind: array.kind,
        row: array.row,
        place: Place::Array(place),
    };
    state.names.declare(alloc, name, meaning)?;
    state.arrays.push(array)?;
    Ok(())
}

fn no_init(init: &Option<Boxed<Expr>>, offset: u32) -> Result<(), TypeFault>
    ensures { Says (declarations.no_init init.now offset) tt result }
{
    match init {
        None => Ok(()),
        Some(_) => Err(TypeFault::Mismatch(offset)),
    }
}

/// A local array that may be declared.
fn bare_array(
    names: &Scopes,
    size: &ArraySize,
    kind: Kind,
    name: &Word,
    init: &Option<Boxed<Expr>>,
    offset: u32,
) -> Result<TypedArray, TypeFault>
    ensures { Says (declarations.sized_fault size.now kind name.now init.now offset names.now)
        (inside_declarations.typed_array size.now kind) result }
{
    let (length, row) = array_length(names, size, kind, name, offset)?;
    no_init(init, offset)?;
    Ok(TypedArray { kind, length, row })
}

fn sized(
    alloc: Global,
    state: &mut State,
    array: TypedArray,
    name: Word,
) -> Result<TypedStmt, TypeFault>
    ensures { Moves None (TypedStmt.Declare (Place.Array (length state.old.arrays)) None)
        (states.with_array array.kind array.row name array.length state.old) state.new result }
{
    let place = counted(state.arrays.len())?;
    add_array(alloc, state, array, name, place)?;
    Ok(TypedStmt::Declare {
        place: Place::Array(place),
        init: None,
    })
}

fn declare_array(
    alloc: Global,
    state: &mut State,
    offset: u32,
    kind: Kind,
    name: Word,
    size: &ArraySize,
    init: &Option<Boxed<Expr>>,
) -> Result<TypedStmt, TypeFault>
    ensures { Moves (declarations.sized_fault size.now kind name init.now offset state.old.names)
        (TypedStmt.Declare (Place.Array (length state.old.arrays)) None)
        (states.with_array kind (states.row_in size.now) name
        (declarations.extent size.now) state.old)
        state.new result }
{
    let array = bare_array(&state.names, size, kind, &name, init, offset)?;
    sized(alloc, state, array, name)
}

fn declare_scalar(
    alloc: Global,
    state: &mut State,
    offset: u32,
    kind: Kind,
    name: Word,
    init: Option<Boxed<Expr>>,
) -> Result<TypedStmt, TypeFault>
    ensures { Moves (declarations.scalar_init_fault kind name init offset state.old)
        (TypedStmt.Declare (Place.Scalar (length state.old.scalars))
        (left_out.value_of init kind (states.with_scalar kind name state.old).names))
        (states.with_scalar kind name state.old) state.new result }
{
    let place = scalar_place(state, &name, offset)?;
    add_scalar(alloc, state, kind, name, place)?;
    let init = value_to(alloc, &state.names, kind, init)?;
    Ok(TypedStmt::Declare {
        place: Place::Scalar(place),
        init,
    })
}

#[tactic(auto, using(crate::proofs::Nodes::on_declare))]
pub fn declare(
    alloc: Global,
    state: &mut State,
    around: Around,
    offset: u32,
    kind: Kind,
    name: Word,
    size: ArraySize,
    init: Option<Boxed<Expr>>,
) -> Result<TypedStmt, TypeFault>
    ensures { Runs (part (states.at offset (node.Declare kind name size init))) around state.old
        state.new result }
{
    match size {
        ArraySize::Scalar => declare_scalar(alloc, state, offset, kind, name, init),
        size => declare_array(alloc, state, offset, kind, name, &size, &init),
    }
}
