//! The labels of a switch, its test and its scalar.

ghost use Rattle.std.specs.Prelude.{◌++◌, length, map, nat_lt};
ghost use Rattle.c_tree.specs.Limits.{most_scalars};
ghost use Rattle.c_type_expr.specs.Constants as constants;
ghost use Rattle.c_type_expr.specs.Blames.{unless};
ghost use Rattle.c_type_expr.specs.inside.Says.{Says};
ghost use Rattle.c_type_expr.specs.Trees.{tree};
ghost use Rattle.c_type_expr.specs.Conversions.{with_convert};
ghost use Rattle.c_type.specs.States.{with_switch};
ghost use Rattle.c_type.specs.Statements as statements;
ghost use Rattle.c_type.specs.Statements.{labels_fault, switch_kind, case_fault};
ghost use Rattle.c_type.specs.inside.Runs.{Moves};

use crate::seen::SeenLabels;
use crate::state::State;
use base::{Boxed, Items};
use c_constant::promoted;
use c_tree::{Expr, Kind, Label, MOST_SCALARS, Slot, TypedExpr};
use c_type_expr::{Role, Scopes, TypeFault, full, full_constant, kind_of, with_convert};
use std::alloc::Global;

/// The word of a label at a type, none for `default`.
fn label_word(names: &Scopes, kind: Kind, label: &Label) -> Result<Option<u64>, TypeFault>
    ensures { Says (case_fault label.now.value names.now) (statements.label_word kind label.now)
        result }
{
    match &label.value {
        None => Ok(None),
        Some(e) => {
            let word = full_constant(names, kind, e.get())?;
            Ok(Some(word))
        }
    }
}

/// The words of the labels of a section, each another than those before it.
pub fn section_labels(
    alloc: Global,
    names: &Scopes,
    kind: Kind,
    seen: &mut SeenLabels,
    labels: &[Label],
) -> Result<Items<Option<u64>>, TypeFault>
    ensures { Moves (labels_fault kind seen.old labels.now names.now)
        (map (statements.label_word kind) labels.now)
        (seen.old ++ map (statements.label_word kind) labels.now) seen.new result }
{
    let mut found = Items::new(alloc);
    for label in labels {
        let word = label_word(names, kind, label)?;
        seen.add(word, label.offset)?;
        found.push(word)?;
    }
    Ok(found)
}

/// The test of a switch, promoted, and its type.
pub fn switch_test(
    alloc: Global,
    names: &Scopes,
    test: Boxed<Expr>,
) -> Result<(Boxed<TypedExpr>, Kind), TypeFault>
    ensures { Says (constants.full test Role.Value names.now) (
      with_convert (switch_kind test names.now) (tree test names.now),
      switch_kind test names.now,
    ) result }
{
    let test = full(alloc, names, Role::Value, test)?;
    let kind = promoted(kind_of(test.get()));
    let test = with_convert(alloc, kind, test)?;
    Ok((test, kind))
}

/// The number of the scalar that a switch counts.
pub fn switch_scalar(state: &mut State, kind: Kind, offset: u32) -> Result<u32, TypeFault>
    ensures { Moves
        (unless (nat_lt (length state.old.scalars) most_scalars) (TypeFault.TooManyScalars offset))
        (length state.old.scalars) (with_switch kind state.old) state.new result }
{
    let place = state.scalars.len();
    if place as u64 >= MOST_SCALARS {
        return Err(TypeFault::TooManyScalars(offset));
    }
    state.scalars.push(Slot::Scalar(kind))?;
    Ok(place as u32)
}
