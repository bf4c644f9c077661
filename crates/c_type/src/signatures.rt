//! What the declarations of a function must agree on.

ghost use Rattle.std.specs.Prelude.{◌≡◌};
ghost use Rattle.std.specs.Option.{option_copied};
ghost use Rattle.c_type_expr.specs.inside.Says.{Says};
ghost use Rattle.c_type.specs.Units as units;

use c_tree::{Kind, Slot};
use c_type_expr::{Meaning, TypeFault, same_row};

fn same_slot(a: Slot, b: Slot) -> bool
    ensures { result ≡ units.same_slot a b }
{
    match (a, b) {
        (Slot::Scalar(j), Slot::Scalar(k)) => j == k,
        (Slot::Address { kind: j, row: p }, Slot::Address { kind: k, row: q }) => {
            j == k && same_row(p, q)
        }
        _ => false,
    }
}

fn same_slots(a: &[Slot], b: &[Slot]) -> bool
    ensures { result ≡ units.same_slots a.now b.now }
{
    match a {
        [] => match b {
            [] => true,
            [_, ..] => false,
        },
        [s, ss @ ..] => match b {
            [] => false,
            [t, ts @ ..] => same_slot(*s, *t) && same_slots(ss, ts),
        },
    }
}

fn same_result(a: Option<Kind>, b: Option<Kind>) -> bool
    ensures { result ≡ units.same_result a b }
{
    match (a, b) {
        (None, None) => true,
        (Some(j), Some(k)) => j == k,
        _ => false,
    }
}

/// Whether a name may be declared as a function, or defined as one.
pub fn undefined(found: Option<&Meaning>, is_def: bool, offset: u32) -> Result<(), TypeFault>
    ensures { Says (units.defined_fault is_def (option_copied found.entry) offset) tt result }
{
    match found {
        None => Ok(()),
        Some(Meaning::Function { defined, .. }) => {
            if is_def && *defined {
                Err(TypeFault::Twice(offset))
            } else {
                Ok(())
            }
        }
        Some(_) => Err(TypeFault::Twice(offset)),
    }
}

/// Whether the declarations of a function agree.
pub fn agrees(
    found: Option<&Meaning>,
    given: Option<Kind>,
    slots: &[Slot],
    offset: u32,
) -> Result<(), TypeFault>
    ensures { Says (units.type_fault given slots.now (option_copied found.entry) offset) tt result }
{
    match found {
        Some(
            Meaning::Function {
                result: declared,
                params,
                ..
            },
        ) => {
            if same_result(*declared, given) && same_slots(params.as_slice(), slots) {
                Ok(())
            } else {
                Err(TypeFault::Mismatch(offset))
            }
        }
        _ => Ok(()),
    }
}
