//! The globals.

ghost use Rattle.std.specs.Prelude.{◌≡◌, ◌+◌, ◌*◌, ◌≤◌, nat_le, length, None, IfOk};
ghost use Rattle.c_tree.specs.Limits.{most_object_bytes};
ghost use Rattle.c_type.specs.States as states;
ghost use Rattle.c_type_expr.specs.Blames.{first, unless};
ghost use Rattle.c_type_expr.specs.inside.Says.{Says};
ghost use Rattle.c_constant.specs.Kinds as kinds;
ghost use Rattle.c_type.specs.Units as units;
ghost use Rattle.c_type.specs.inside.Units as inside_units;
ghost use Rattle.c_type.specs.FileScopes as file_scopes;
ghost use Rattle.c_type.specs.inside.Runs.{Moves};

use crate::counts::{counted, short};
use crate::declarations::{row_in, twice};
use crate::file_scope::FileScope;
use crate::initialisers::{rows_fit, value_count, values, whole_rows};
use base::{Boxed, Items};
use c_constant::bytes;
use c_tree::{ArraySize, Expr, Kind, MOST_OBJECT_BYTES, Place, TypedGlobal, Word};
use c_type_expr::{Meaning, Scopes, TypeFault, size_length};
use std::alloc::Global;

/// Whether the globals have room for `count` more of a kind.
fn has_room(count: u64, kind: Kind, taken: u64) -> bool
    ensures { result ≡ nat_le (count * kinds.bytes kind + taken) most_object_bytes }
{
    taken <= MOST_OBJECT_BYTES && count <= (MOST_OBJECT_BYTES - taken) / bytes(kind) as u64
}

fn place_at(
    file: &FileScope,
    rows: u64,
    length: u64,
    kind: Kind,
    name: &Word,
    offset: u32,
) -> Result<u64, TypeFault>
    ensures value { Says (units.place_fault (rows * length) kind name.now offset file.now)
        (rows * length) result }
    ensures few { IfOk result (λ n. n * kinds.bytes kind + file.now.bytes ≤ most_object_bytes) }
{
    twice(&file.names, name, offset)?;
    let Some(count) = rows.checked_mul(length) else {
        return Err(TypeFault::TooLarge(offset));
    };
    if has_room(count, kind, file.bytes) {
        Ok(count)
    } else {
        Err(TypeFault::TooLarge(offset))
    }
}

fn some_values(count: u64, offset: u32) -> Result<(), TypeFault>
    ensures { Says (unless (Rattle.std.specs.Prelude.nat_lt 0 count) (TypeFault.Mismatch offset)) tt
        result }
{
    if count == 0 {
        Err(TypeFault::Mismatch(offset))
    } else {
        Ok(())
    }
}

/// How many rows a global has, and how many values each holds.
fn sizes_in(
    names: &Scopes,
    size: &ArraySize,
    init: &[Items<Boxed<Expr>>],
    offset: u32,
) -> Result<(u64, u64), TypeFault>
    ensures { Says (inside_units.count_fault size.now init.now offset names.now)
        (units.global_rows size.now init.now, units.row_length size.now init.now) result }
{
    match size {
        ArraySize::Scalar => Ok((1, 1)),
        ArraySize::Open => {
            let count = value_count(init)?;
            some_values(count, offset)?;
            Ok((1, count))
        }
        ArraySize::Sized(size) => {
            let length = size_length(names, size.get())?;
            Ok((1, length))
        }
        ArraySize::Rows { rows, size } => match rows {
            None => {
                let length = size_length(names, size.get())?;
                some_values(init.len() as u64, offset)?;
                Ok((init.len() as u64, length))
            }
            Some(rows) => {
                let rows = size_length(names, rows.get())?;
                let length = size_length(names, size.get())?;
                Ok((rows, length))
            }
        },
    }
}

fn meaning_of(size: &ArraySize, kind: Kind, length: u32, number: u32) -> Meaning
    requires { states.row_if size.now length ≡ states.row_in size.now }
    ensures { result ≡ file_scopes.global_meaning size.now kind number }
{
    match size {
        ArraySize::Scalar => Meaning::Scalar(kind, Place::Global(number)),
        size => Meaning::Array {
            kind,
            row: row_in(size, length),
            place: Place::Global(number),
        },
    }
}

fn length_in(size: &ArraySize, count: u64) -> Option<u32>
    requires { count ≤ most_object_bytes }
    ensures { result ≡ file_scopes.length_in size.now count }
{
    match size {
        ArraySize::Scalar => None,
        _ => Some(count as u32),
    }
}

/// Whether there are no more values than a global holds, nor more rows than it has.
fn fits(size: &ArraySize, rows: u64, length: u64, given: u64, init: &[Items<Boxed<Expr>>]) -> bool
    requires rows { rows ≡ units.global_rows size.now init.now }
    requires length { length ≡ units.row_length size.now init.now }
    requires given { given ≡ Rattle.std.specs.Prelude.length (file_scopes.all_values init.now) }
    ensures { result ≡ units.init_fits size.now init.now }
{
    match size {
        ArraySize::Rows { rows: wanted, .. } => match wanted {
            None => rows_fit(length, init),
            Some(_) => init.len() as u64 <= rows && rows_fit(length, init),
        },
        _ => given <= length,
    }
}

/// What is known of a global that may be declared: its number, its rows and their length, and how many
/// values it holds.
#[derive(Clone, Copy, Debug, PartialEq, Eq)]
struct Admitted {
    number: u32,
    rows: u64,
    length: u64,
    count: u64,
}

fn admit(
    file: &FileScope,
    offset: u32,
    kind: Kind,
    name: &Word,
    size: &ArraySize,
    init: &[Items<Boxed<Expr>>],
) -> Result<Admitted, TypeFault>
    ensures value { Says (inside_units.admitted_fault size.now kind name.now init.now offset file.now) (record {
      number = length file.now.globals;
      rows = units.global_rows size.now init.now;
      length = units.row_length size.now init.now;
      count = units.count_of size.now init.now;
    }) result }
    ensures few { IfOk result
        (λ r. r.count * kinds.bytes kind + file.now.bytes ≤ most_object_bytes) }
{
    let (rows, length) = sizes_in(&file.names, size, init, offset)?;
    let count = place_at(file, rows, length, kind, name, offset)?;
    let number = counted(file.globals.len())?;
    Ok(Admitted {
        number,
        rows,
        length,
        count,
    })
}

/// The words of a global of which the name is declared.
#[tactic(auto, using(crate::proofs::Rows::on_rows))]
fn given(
    alloc: Global,
    names: &Scopes,
    offset: u32,
    kind: Kind,
    size: &ArraySize,
    known: Admitted,
    init: &[Items<Boxed<Expr>>],
) -> Result<Items<u64>, TypeFault>
    requires rows { known.rows ≡ units.global_rows size.now init.now }
    requires length { known.length ≡ units.row_length size.now init.now }
    ensures { Says (first (inside_units.values_fault (file_scopes.all_values init.now) names.now)
        (unless (units.init_fits size.now init.now) (TypeFault.Mismatch offset)))
        (units.init_words size.now kind init.now) result }
{
    let words = values(alloc, names, kind, init)?;
    if !fits(size, known.rows, known.length, words.len() as u64, init) {
        return Err(TypeFault::Mismatch(offset));
    }
    match size {
        ArraySize::Rows { .. } => whole_rows(alloc, words.as_slice(), init, known.length),
        _ => Ok(words),
    }
}

/// The file scope after a global.
#[tactic(auto, using(crate::proofs::Rows::on_global))]
pub fn global(
    alloc: Global,
    file: &mut FileScope,
    offset: u32,
    kind: Kind,
    name: Word,
    size: &ArraySize,
    init: &[Items<Boxed<Expr>>],
) -> Result<(), TypeFault>
    ensures { Moves (inside_units.global_fault size.now kind name init.now offset file.old) tt
        (units.with_global size.now kind name init.now file.old) file.new result }
{
    let known = admit(file, offset, kind, &name, size, init)?;
    let length = short(known.length)?;
    file.names
        .declare(alloc, name, meaning_of(size, kind, length, known.number))?;
    let init = given(alloc, &file.names, offset, kind, size, known, init)?;
    file.bytes += known.count * bytes(kind) as u64;
    file.globals.push(TypedGlobal {
        kind,
        length: length_in(size, known.count),
        row: row_in(size, length),
        init,
    })?;
    Ok(())
}
