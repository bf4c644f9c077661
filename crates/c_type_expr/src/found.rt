//! What a name that was looked up gives in a role.

ghost use Rattle.std.specs.Prelude.{◌≡◌};
ghost use Rattle.std.specs.Option.{option_copied};
ghost use Rattle.c_type_expr.specs.Faults.{unwanted_value, name_fault, element_fault, call_fault};
ghost use Rattle.c_type_expr.specs.Faults.{callee_fault, slots_of};
ghost use Rattle.c_type_expr.specs.Faults as faults;
ghost use Rattle.c_type_expr.specs.Roles.{takes_result};
ghost use Rattle.c_type_expr.specs.Blames.{unless};
ghost use Rattle.c_type_expr.specs.Conversions as conversions;
ghost use Rattle.c_type_expr.specs.Trees.{name_tree, array_kind, array_place, result_kind};
ghost use Rattle.c_type_expr.specs.Trees.{callee_of, callee_or};
ghost use Rattle.c_type_expr.specs.inside.Says.{Says};

use crate::fault::TypeFault;
use crate::meaning::Meaning;
use crate::role::Role;
use crate::spot::Spot;
use c_tree::{Callee, Kind, Place, Slot, TypedExpr, TypedNode};

/// Whether a value may stand where the role is wanted.
pub fn value_at(role: Role, offset: u32) -> Result<(), TypeFault>
    ensures { Says (unwanted_value role offset) tt result }
{
    if role.takes_value() {
        Ok(())
    } else {
        Err(TypeFault::Mismatch(offset))
    }
}

/// Whether a left side may be written to.
pub fn place_at(is_place: bool, offset: u32) -> Result<(), TypeFault>
    ensures { Says (unless is_place (TypeFault.Mismatch offset)) tt result }
{
    if is_place {
        Ok(())
    } else {
        Err(TypeFault::Mismatch(offset))
    }
}

fn named(token: u32, kind: Kind, place: Place) -> TypedExpr
    ensures { result ≡ conversions.a token (Some kind) (TypedNode.Name place) }
{
    TypedExpr {
        kind: Some(kind),
        at: token,
        node: TypedNode::Name(place),
    }
}

fn end_of_file(token: u32) -> TypedExpr
    ensures { result ≡ conversions.end_of_file token }
{
    TypedExpr {
        kind: Some(Kind::Int),
        at: token,
        node: TypedNode::Number(u64::MAX),
    }
}

pub fn name_at(found: Option<&Meaning>, role: Role, spot: Spot) -> Result<TypedExpr, TypeFault>
    ensures { Says (name_fault (option_copied found.entry) role spot.offset)
        (name_tree spot.at (option_copied found.entry)) result }
{
    match found {
        None => Err(TypeFault::Unknown(spot.offset)),
        Some(Meaning::Scalar(kind, place)) => {
            if role.takes_element() {
                Ok(named(spot.at, *kind, *place))
            } else {
                Err(TypeFault::Mismatch(spot.offset))
            }
        }
        Some(Meaning::Array { kind, row, place }) => {
            if role.takes_array(*kind, *row) {
                Ok(named(spot.at, *kind, *place))
            } else {
                Err(TypeFault::Mismatch(spot.offset))
            }
        }
        Some(Meaning::Function { .. }) => Err(TypeFault::Mismatch(spot.offset)),
        Some(Meaning::EndOfFile) => {
            if role.takes_value() {
                Ok(end_of_file(spot.at))
            } else {
                Err(TypeFault::Mismatch(spot.offset))
            }
        }
    }
}

/// Whether an element has as many indexes as its array has sizes.
fn fits_sizes(row: Option<u32>, two: bool) -> bool
    ensures { result ≡ faults.fits_sizes row two }
{
    match row {
        None => !two,
        Some(_) => two,
    }
}

/// The type of an element, by two indexes or by one, and the place of its array.
pub fn element_at(
    found: Option<&Meaning>,
    two: bool,
    role: Role,
    offset: u32,
) -> Result<(Kind, Place), TypeFault>
    ensures { Says (element_fault (option_copied found.entry) two role offset)
        (array_kind (option_copied found.entry), array_place (option_copied found.entry)) result }
{
    match found {
        None => Err(TypeFault::Unknown(offset)),
        Some(Meaning::Array { kind, row, place }) => {
            if fits_sizes(*row, two) && role.takes_element() {
                Ok((*kind, *place))
            } else {
                Err(TypeFault::Mismatch(offset))
            }
        }
        Some(_) => Err(TypeFault::Mismatch(offset)),
    }
}

pub fn slots_in(found: Option<&Meaning>) -> &[Slot]
    ensures { result.now ≡ slots_of (option_copied found.entry) }
{
    match found {
        Some(Meaning::Function { params, .. }) => params.as_slice(),
        _ => &[],
    }
}

fn may_give(kind: Option<Kind>, role: Role) -> bool
    ensures { result ≡ takes_result kind role }
{
    match kind {
        None => role.takes_void(),
        Some(_) => role.takes_value(),
    }
}

fn called(
    callee: Option<Callee>,
    given: Option<Kind>,
    params: &[Slot],
    count: usize,
    role: Role,
    offset: u32,
) -> Result<Callee, TypeFault>
    ensures { Says (callee_fault callee given params.now count role offset) (callee_or callee)
        result }
{
    let Some(callee) = callee else {
        return Err(TypeFault::Unknown(offset));
    };
    if !may_give(given, role) {
        return Err(TypeFault::Mismatch(offset));
    }
    if count != params.len() {
        return Err(TypeFault::Arity(offset));
    }
    Ok(callee)
}

pub fn call_at(
    found: Option<&Meaning>,
    count: usize,
    role: Role,
    offset: u32,
) -> Result<(Option<Kind>, Callee), TypeFault>
    ensures { Says (call_fault (option_copied found.entry) count role offset)
        (result_kind (option_copied found.entry), callee_of (option_copied found.entry)) result }
{
    match found {
        None => Err(TypeFault::Unknown(offset)),
        Some(
            Meaning::Function {
                result: given,
                params,
                callee,
                ..
            },
        ) => {
            let callee = called(*callee, *given, params.as_slice(), count, role, offset)?;
            Ok((*given, callee))
        }
        Some(_) => Err(TypeFault::Mismatch(offset)),
    }
}
