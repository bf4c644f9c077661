//! The flat code of functions.

ghost use Rattle.std.specs.Prelude.{◌≡◌, ◌+◌, ◌≤◌, map, IfOk, OnOk};
ghost use Rattle.c_meaning_spec.specs.Call as call;
ghost use Rattle.ir_forms.specs.inside.FlatCode.{Then};
ghost use Rattle.ir_forms.specs.inside.FlatViews.{code_of, function_of};
ghost use Rattle.flat_lower.specs.inside.TreeViews.{stmt_of, func_of};
ghost use Rattle.flat_lower.specs.inside.Objects.{global_bytes};
ghost use Rattle.flat_lower.specs.inside.Statements.{stmt_code, end_code, lowered_func, lowered_from};
ghost use Rattle.flat_lower.specs.inside.Emitted.{Adds, starts_from};

use crate::around::Around;
use crate::emit::put_return;
use crate::places::Places;
use crate::statements::put_stmt;
use base::{Items, Memory};
use c_constant::bytes;
use c_tree::{TypedArray, TypedFunc, TypedGlobal, TypedStmt};
use ir_forms::{Arg, FlatFunc, FlatStmt};
use std::alloc::Global;

/// The bytes of an array, rounded up to 8.
fn array_bytes(array: &TypedArray) -> u64
    ensures { result ≡ call.array_bytes array.now }
{
    let filled = array.length as u64 * bytes(array.kind) as u64;
    (filled + 7) / 8 * 8
}

// A place some bytes further.
fn further(at: u32, by: u64) -> Result<u32, Memory>
    ensures { IfOk result (λ n. n ≡ at + by) }
{
    if by <= (u32::MAX - at) as u64 {
        Ok(at + by as u32)
    } else {
        Err(Memory)
    }
}

/// The place of each array of a function among its arrays.
fn starts_of(alloc: Global, arrays: &[TypedArray]) -> Result<Items<u32>, Memory>
    ensures { IfOk result (λ found. found ≡ starts_from 0 (map call.array_bytes arrays.now)) }
{
    let mut found = Items::new(alloc);
    let mut at = 0;
    for array in arrays {
        found.push(at)?;
        at = further(at, array_bytes(array))?;
    }
    Ok(found)
}

/// The bytes of all arrays of a function.
fn total_of(arrays: &[TypedArray]) -> Result<u32, Memory>
    ensures { IfOk result (λ n. n ≡ call.all_bytes arrays.now) }
{
    let mut total = 0;
    for array in arrays {
        total = further(total, array_bytes(array))?;
    }
    Ok(total)
}

/// The end of main returns 0.
#[tactic(auto, using(crate::proofs::Emits::nothing))]
fn put_end(code: &mut Items<FlatStmt>, is_main: bool) -> Result<(), Memory>
    ensures { OnOk result (Adds code.old code.new (end_code is_main)) }
{
    if is_main {
        put_return(code, Some(Arg::Const(0)))
    } else {
        Ok(())
    }
}

// The body of a function and its end; that of main returns 0.
fn body_of(
    alloc: Global,
    places: &Places,
    is_main: bool,
    s: &TypedStmt,
) -> Result<Items<FlatStmt>, Memory>
    ensures { IfOk result (λ code.
        code_of code ≡ Then (stmt_code places.now Around.Nowhere (stmt_of s.now)) (end_code is_main)) }
{
    let mut code = Items::new(alloc);
    put_stmt(&mut code, alloc, places, Around::Nowhere, s)?;
    put_end(&mut code, is_main)?;
    Ok(code)
}

// How many parameters, as the flat form holds it.
fn params_of(n: u32) -> Result<u8, Memory>
    ensures { IfOk result (λ m. m ≡ n) }
{
    if n <= 255 { Ok(n as u8) } else { Err(Memory) }
}

// How many scalars, as the flat form holds it.
fn scalars_of(n: usize) -> Result<u8, Memory>
    ensures { IfOk result (λ m. m ≡ n) }
{
    if n <= 255 { Ok(n as u8) } else { Err(Memory) }
}

// The flat form of a function, which may be main.
fn lower_func(
    alloc: Global,
    globals: &[TypedGlobal],
    addresses: &[u64],
    is_main: bool,
    f: &TypedFunc,
) -> Result<FlatFunc, Memory>
    requires { addresses.now ≡ starts_from 0 (map global_bytes globals.now) }
    ensures { IfOk result (λ g.
        function_of g ≡ lowered_func globals.now is_main (func_of f.now)) }
{
    let params = params_of(f.params)?;
    let scalars = scalars_of(f.scalars.len())?;
    let arrays = total_of(f.arrays.as_slice())?;
    let starts = starts_of(alloc, f.arrays.as_slice())?;
    let places = Places::new(
        globals,
        addresses,
        f.scalars.as_slice(),
        f.arrays.as_slice(),
        starts.as_slice(),
    );
    let body = body_of(alloc, &places, is_main, &f.body)?;
    Ok(FlatFunc {
        params,
        scalars,
        arrays,
        body,
    })
}

/// Each function in its order.
pub fn lower_funcs(
    alloc: Global,
    globals: &[TypedGlobal],
    addresses: &[u64],
    main: u32,
    functions: &[TypedFunc],
) -> Result<Items<FlatFunc>, Memory>
    requires { addresses.now ≡ starts_from 0 (map global_bytes globals.now) }
    ensures { IfOk result (λ all.
        map function_of all ≡ lowered_from globals.now main 0 (map func_of functions.now)) }
{
    let mut all = Items::new(alloc);
    let mut n: usize = 0;
    for f in functions {
        let lowered = lower_func(alloc, globals, addresses, n == main as usize, f)?;
        all.push(lowered)?;
        n += 1;
    }
    Ok(all)
}
