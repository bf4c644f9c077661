//! The words of a global's initialiser.

ghost use Rattle.std.specs.Prelude.{◌≡◌, ◌++◌, map, length, replicate, None, OnOk};
ghost use Rattle.c_type_expr.specs.Constants as constants;
ghost use Rattle.c_type_expr.specs.inside.Says.{Says};
ghost use Rattle.c_type.specs.Units as units;
ghost use Rattle.c_type.specs.inside.Units as inside_units;
ghost use Rattle.c_type.specs.FileScopes as file_scopes;

use base::{Boxed, Items};
use c_tree::{Expr, Kind};
use c_type_expr::{Scopes, TypeFault, full_constant};
use std::alloc::Global;

/// How many values the lists have in all. A count of more than 64 bits is want of memory.
pub fn value_count(init: &[Items<Boxed<Expr>>]) -> Result<u64, TypeFault>
    ensures { Says None (length (file_scopes.all_values init.now)) result }
{
    let mut count: u64 = 0;
    for list in init {
        let Some(more) = count.checked_add(list.len() as u64) else {
            return Err(TypeFault::Memory);
        };
        count = more;
    }
    Ok(count)
}

/// Adds the values of a list, at a kind.
fn add_values(
    names: &Scopes,
    kind: Kind,
    list: &[Boxed<Expr>],
    found: &mut Items<u64>,
) -> Result<(), TypeFault>
    ensures fault { Says (inside_units.values_fault list.now names.now) tt result }
    ensures ok { OnOk result (found.new ≡ found.old ++ map (constants.constant_at kind) list.now) }
{
    for e in list {
        let word = full_constant(names, kind, e.get())?;
        found.push(word)?;
    }
    Ok(())
}

/// The values of an initialiser at a kind.
#[tactic(auto, using(crate::proofs::Rows::on_values))]
pub fn values(
    alloc: Global,
    names: &Scopes,
    kind: Kind,
    init: &[Items<Boxed<Expr>>],
) -> Result<Items<u64>, TypeFault>
    ensures { Says (inside_units.values_fault (file_scopes.all_values init.now) names.now)
        (map (constants.constant_at kind) (file_scopes.all_values init.now)) result }
{
    let mut found = Items::new(alloc);
    for list in init {
        add_values(names, kind, list.as_slice(), &mut found)?;
    }
    Ok(found)
}

/// Adds so many zeros.
fn add_zeros(found: &mut Items<u64>, count: u64) -> Result<(), TypeFault>
    ensures fault { Says None tt result }
    ensures ok { OnOk result (found.new ≡ found.old ++ replicate count 0) }
{
    for _zero in 0..count {
        found.push(0)?;
    }
    Ok(())
}

/// Adds the words of a row, with so many zeros behind them.
fn add_row(alloc: Global, found: &mut Items<u64>, row: &[u64], zeros: u64) -> Result<(), TypeFault>
    ensures fault { Says None tt result }
    ensures ok { OnOk result (found.new ≡ found.old ++ (row.now ++ replicate zeros 0)) }
{
    let words = Items::from_slice(alloc, row)?;
    found.append(words)?;
    add_zeros(found, zeros)
}

/// The words of rows, of which each takes as many as its list has, and zeros behind them up to its length.
pub fn whole_rows(
    alloc: Global,
    words: &[u64],
    init: &[Items<Boxed<Expr>>],
    length: u64,
) -> Result<Items<u64>, TypeFault>
    requires { Rattle.std.specs.Prelude.length words.now
        ≡ Rattle.std.specs.Prelude.length (file_scopes.all_values init.now) }
    ensures { Says None (inside_units.filled_rows length init.now words.now) result }
{
    let mut found = Items::new(alloc);
    let mut rest = words;
    for list in init {
        let given = list.len();
        let (row, others) = rest.split_at(given);
        add_row(alloc, &mut found, row, length.saturating_sub(given as u64))?;
        rest = others;
    }
    Ok(found)
}

/// Whether no row has more values than its length.
pub fn rows_fit(length: u64, init: &[Items<Boxed<Expr>>]) -> bool
    ensures { result ≡ units.rows_fit length init.now }
{
    for list in init {
        if list.len() as u64 > length {
            return false;
        }
    }
    true
}
