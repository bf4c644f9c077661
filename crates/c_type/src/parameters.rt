//! The parameters of a function.

ghost use Rattle.std.specs.Prelude.{◌≡◌, ◌*◌, [], nat_le, map, None, OnOk, true};
ghost use Rattle.std.specs.Option.{option_copied};
ghost use Rattle.c_tree.specs.Limits.{most_object_bytes};
ghost use Rattle.c_constant.specs.Kinds as kinds;
ghost use Rattle.c_type_expr.specs.Constants.{size_fault};
ghost use Rattle.c_type_expr.specs.inside.Says.{Says};
ghost use Rattle.c_type.specs.States as states;
ghost use Rattle.c_type.specs.Functions as functions;
ghost use Rattle.c_type.specs.inside.Functions as inside_functions;
ghost use Rattle.c_type.specs.inside.LeftOut.{some_block};
ghost use Rattle.c_type.specs.inside.Runs.{NamesAre, Names};

use crate::counts::short;
use crate::declarations::is_end;
use base::Items;
use c_constant::bytes;
use c_tree::{ArraySize, Expr, Kind, MOST_OBJECT_BYTES, MOST_PARAMETERS, Param, Place, Slot, Word};
use c_type_expr::{Meaning, Scopes, TypeFault, length_or_zero, size_length};
use std::alloc::Global;

/// The second size of an array parameter, where it has two.
pub fn param_row(size: &ArraySize) -> Result<Option<u32>, TypeFault>
    ensures { Says None (states.row_in size.now) result }
{
    match size {
        ArraySize::Rows { size, .. } => {
            let length = short(length_or_zero(size.get()))?;
            Ok(Some(length))
        }
        _ => Ok(None),
    }
}

fn slot_of(param: &Param) -> Result<Slot, TypeFault>
    ensures { Says None (states.slot_of param.now) result }
{
    match &param.size {
        ArraySize::Scalar => Ok(Slot::Scalar(param.kind)),
        size => {
            let row = param_row(size)?;
            Ok(Slot::Address {
                kind: param.kind,
                row,
            })
        }
    }
}

pub fn slots_of(alloc: Global, params: &[Param]) -> Result<Items<Slot>, TypeFault>
    ensures { Says None (map states.slot_of params.now) result }
{
    let mut found = Items::new(alloc);
    for param in params {
        let slot = slot_of(param)?;
        found.push(slot)?;
    }
    Ok(found)
}

fn is_named(name: &Option<Word>, word: &Word) -> bool
    ensures { result ≡ states.is_named name.now word.now }
{
    match name {
        None => false,
        Some(name) => name == word,
    }
}

fn named_among(params: &[Param], word: &Word) -> bool
    ensures { result ≡ states.named_among params.now word.now }
{
    let mut found = false;
    for param in params {
        found = found || is_named(&param.name, word);
    }
    found
}

fn name_at(
    names: &Scopes,
    is_def: bool,
    seen: &[Param],
    name: &Option<Word>,
    offset: u32,
) -> Result<(), TypeFault>
    ensures { Says (functions.name_fault is_def names.now seen.now name.now offset) tt result }
{
    match name {
        None => {
            if is_def {
                Err(TypeFault::Mismatch(offset))
            } else {
                Ok(())
            }
        }
        Some(word) => {
            if named_among(seen, word) || is_end(names.look_up(word)) {
                Err(TypeFault::Twice(offset))
            } else {
                Ok(())
            }
        }
    }
}

/// What the name of a parameter means, of that number among the scalars.
fn meaning_at(size: &ArraySize, kind: Kind, number: u32) -> Result<Meaning, TypeFault>
    ensures { Says None (inside_functions.param_meaning size.now kind number) result }
{
    match size {
        ArraySize::Scalar => Ok(Meaning::Scalar(kind, Place::Scalar(number))),
        size => {
            let row = param_row(size)?;
            Ok(Meaning::Array {
                kind,
                row,
                place: Place::Scalar(number),
            })
        }
    }
}

/// Declares the name of a parameter in the innermost block, and gives the number of the next one.
fn add_name(alloc: Global, names: &mut Scopes, param: &Param, number: u32) -> Result<u32, TypeFault>
    ensures { Names (inside_functions.next_number param.now.name number) (inside_functions.param_names
        param.now.name param.now.size param.now.kind number names.old) names.new result }
{
    let Some(name) = &param.name else {
        return Ok(number);
    };
    let name = name.copy(alloc)?;
    let meaning = meaning_at(&param.size, param.kind, number)?;
    names.declare(alloc, name, meaning)?;
    match number.checked_add(1) {
        None => Err(TypeFault::Memory),
        Some(next) => Ok(next),
    }
}

/// Declares the names of parameters in the innermost block.
fn add_names(alloc: Global, names: &mut Scopes, seen: &[Param]) -> Result<(), TypeFault>
    ensures { NamesAre (inside_functions.params_names seen.now 0 names.old) names.new result }
{
    let mut number = 0;
    for param in seen {
        number = add_name(alloc, names, param, number)?;
    }
    Ok(())
}

/// Whether a second size is a constant where these parameters are in scope.
#[tactic(auto, using(crate::proofs::Blocks::on_params))]
fn size_behind(
    alloc: Global,
    names: &mut Scopes,
    seen: &[Param],
    size: &Expr,
) -> Result<(), TypeFault>
    requires { some_block names.old ≡ true }
    ensures fault { Says
        (size_fault size.now (states.with_params seen.now (states.started names.old None)).names)
        tt result }
    ensures same { OnOk result (names.new ≡ names.old) }
{
    names.open()?;
    add_names(alloc, names, seen)?;
    size_length(names, size)?;
    names.close();
    Ok(())
}

/// Whether the second size of an array parameter is a constant where those before it are in scope.
fn row_at(
    alloc: Global,
    names: &mut Scopes,
    seen: &[Param],
    size: &ArraySize,
) -> Result<(), TypeFault>
    requires { some_block names.old ≡ true }
    ensures fault { Says (inside_functions.row_fault size.now names.old seen.now) tt result }
    ensures same { OnOk result (names.new ≡ names.old) }
{
    match size {
        ArraySize::Rows { size, .. } => size_behind(alloc, names, seen, size.get()),
        _ => Ok(()),
    }
}

/// Whether a row of so many elements has no more bytes than an array may have.
fn fits(length: u64, kind: Kind) -> bool
    ensures { result ≡ nat_le (length * kinds.bytes kind) most_object_bytes }
{
    length <= MOST_OBJECT_BYTES / bytes(kind) as u64
}

/// Whether a row of an array parameter has no more bytes than an array may have.
fn row_bytes(size: &ArraySize, kind: Kind, offset: u32) -> Result<(), TypeFault>
    ensures { Says (functions.row_bytes_fault size.now kind offset) tt result }
{
    match size {
        ArraySize::Rows { size, .. } => {
            if fits(length_or_zero(size.get()), kind) {
                Ok(())
            } else {
                Err(TypeFault::TooLarge(offset))
            }
        }
        _ => Ok(()),
    }
}

fn param_at(
    alloc: Global,
    names: &mut Scopes,
    is_def: bool,
    seen: &[Param],
    param: &Param,
) -> Result<(), TypeFault>
    requires { some_block names.old ≡ true }
    ensures fault { Says (inside_functions.param_fault is_def names.old seen.now param.now) tt result }
    ensures same { OnOk result (names.new ≡ names.old) }
{
    row_at(alloc, names, seen, &param.size)?;
    name_at(names, is_def, seen, &param.name, param.offset)?;
    if seen.len() >= MOST_PARAMETERS {
        return Err(TypeFault::TooManyParams(param.offset));
    }
    row_bytes(&param.size, param.kind, param.offset)
}

/// Whether a function may have these parameters: the first that is one too many is the last that is looked at.
pub fn params_at(
    alloc: Global,
    names: &mut Scopes,
    is_def: bool,
    params: &[Param],
) -> Result<(), TypeFault>
    requires { some_block names.old ≡ true }
    ensures fault { Says (inside_functions.params_fault is_def names.old [] params.now) tt result }
    ensures same { OnOk result (names.new ≡ names.old) }
{
    for i in 0..params.len() {
        param_at(alloc, names, is_def, &params[..i], &params[i])?;
    }
    Ok(())
}
