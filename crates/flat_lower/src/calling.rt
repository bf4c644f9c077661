//! The flat code of calls.

ghost use Rattle.std.specs.Prelude.{◌≡◌, OnOk};
ghost use Rattle.c_tree.specs.declared.Callee.TheVariants.{PutChar};
ghost use Rattle.flat_lower.specs.inside.Expressions as expressions;
ghost use Rattle.flat_lower.specs.inside.Expressions.{call_code};
ghost use Rattle.flat_lower.specs.inside.Emitted.{Adds};

use crate::emit::{put_call, put_get, put_halt, put_let, put_out, temp};
use base::{Items, Memory};
use c_tree::{Callee, Kind};
use ir_forms::{Arg, FlatStmt};
use trips_isa::Op;

// The variable that takes the result of a call, if it has one.
fn result_var(kind: Option<Kind>, d: u8) -> Option<u16>
    ensures { result ≡ expressions.result_var kind d }
{
    match kind {
        None => None,
        Some(_) => Some(temp(d)),
    }
}

// A call of `putchar`.
fn put_putchar(
    code: &mut Items<FlatStmt>,
    kind: Option<Kind>,
    d: u8,
    args: &Items<Arg>,
) -> Result<(), Memory>
    ensures { OnOk result (Adds code.old code.new (call_code PutChar kind d args.now)) }
{
    put_out(code, Arg::Var(temp(d)))?;
    put_let(code, temp(d), Op::Extub, Arg::Var(temp(d)), Arg::Const(0))?;
    Ok(())
}

/// What follows the arguments.
pub fn put_callee(
    code: &mut Items<FlatStmt>,
    function: Callee,
    kind: Option<Kind>,
    d: u8,
    args: Items<Arg>,
) -> Result<(), Memory>
    ensures { OnOk result (Adds code.old code.new (call_code function kind d args)) }
{
    match function {
        Callee::Func(f) => put_call(code, f, args, result_var(kind, d)),
        Callee::GetChar => put_get(code, temp(d)),
        Callee::PutChar => put_putchar(code, kind, d, &args),
        Callee::Exit => put_halt(code, Arg::Var(temp(d))),
    }
}
