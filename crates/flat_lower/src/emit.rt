//! One more flat statement.

ghost use Rattle.std.specs.Prelude.{◌≡◌, suc, IfOk, OnOk};
ghost use Rattle.ir_forms.specs.inside.FlatCode as flat;
ghost use Rattle.ir_forms.specs.inside.FlatCode.{only};
ghost use Rattle.ir_forms.specs.inside.FlatViews.{step_of, code_of, stays};
ghost use Rattle.flat_lower.specs.inside.Operations as operations;
ghost use Rattle.flat_lower.specs.inside.Emitted.{Adds};

use base::{Items, Memory};
use ir_forms::{Arg, FlatStmt};
use trips_isa::Op;

/// Temporary d.
pub fn temp(d: u8) -> u16
    ensures { result ≡ operations.temp d }
{
    64 + d as u16
}

/// Scratch variable s.
pub fn scratch(s: u8) -> u16
    ensures { result ≡ operations.scratch s }
{
    80 + s as u16
}

/// The next depth, where there is one.
pub fn deeper(d: u8) -> Result<u8, Memory>
    ensures { IfOk result (λ n. n ≡ suc d) }
{
    if d < 255 { Ok(d + 1) } else { Err(Memory) }
}

/// The variable of a scalar, where there is one of that number.
pub fn scalar(i: u32) -> Result<u16, Memory>
    ensures { IfOk result (λ x. x ≡ i) }
{
    if i <= 65535 {
        Ok(i as u16)
    } else {
        Err(Memory)
    }
}

// One statement more.
#[tactic(auto, using(crate::proofs::Emits::pushed))]
fn put(code: &mut Items<FlatStmt>, stmt: FlatStmt) -> Result<(), Memory>
    ensures { OnOk result (Adds code.old code.new (only (step_of stmt))) }
{
    code.push(stmt)?;
    Ok(())
}

/// An operation into a variable.
#[tactic(auto, using(crate::proofs::Emits::steps))]
pub fn put_let(code: &mut Items<FlatStmt>, to: u16, op: Op, a: Arg, b: Arg) -> Result<(), Memory>
    ensures { OnOk result (Adds code.old code.new (only (flat.Let to op a b))) }
{
    put(code, FlatStmt::Let { to, op, a, b })
}

/// The address of an array of the frame.
#[tactic(auto, using(crate::proofs::Emits::steps))]
pub fn put_frame(code: &mut Items<FlatStmt>, to: u16, at: u32) -> Result<(), Memory>
    ensures { OnOk result (Adds code.old code.new (only (flat.Frame to at))) }
{
    put(code, FlatStmt::Frame { to, at })
}

/// A load into a variable.
#[tactic(auto, using(crate::proofs::Emits::steps))]
pub fn put_load(code: &mut Items<FlatStmt>, to: u16, op: Op, address: Arg) -> Result<(), Memory>
    ensures { OnOk result (Adds code.old code.new (only (flat.Load to op address))) }
{
    put(code, FlatStmt::Load { to, op, address })
}

/// A save of a value.
#[tactic(auto, using(crate::proofs::Emits::steps))]
pub fn put_save(code: &mut Items<FlatStmt>, op: Op, address: Arg, value: Arg) -> Result<(), Memory>
    ensures { OnOk result (Adds code.old code.new (only (flat.Save op address value))) }
{
    put(code, FlatStmt::Save { op, address, value })
}

/// A call of a function.
#[tactic(auto, using(crate::proofs::Emits::steps))]
pub fn put_call(
    code: &mut Items<FlatStmt>,
    function: u32,
    args: Items<Arg>,
    to: Option<u16>,
) -> Result<(), Memory>
    ensures { OnOk result (Adds code.old code.new (only (flat.Call function args to stays))) }
{
    put(code, FlatStmt::Call { function, args, to })
}

/// A byte of output.
#[tactic(auto, using(crate::proofs::Emits::steps))]
pub fn put_out(code: &mut Items<FlatStmt>, value: Arg) -> Result<(), Memory>
    ensures { OnOk result (Adds code.old code.new (only (flat.Put value))) }
{
    put(code, FlatStmt::Put(value))
}

/// A byte of input into a variable.
#[tactic(auto, using(crate::proofs::Emits::steps))]
pub fn put_get(code: &mut Items<FlatStmt>, to: u16) -> Result<(), Memory>
    ensures { OnOk result (Adds code.old code.new (only (flat.Get to))) }
{
    put(code, FlatStmt::Get { to })
}

/// The end of the whole run.
#[tactic(auto, using(crate::proofs::Emits::steps))]
pub fn put_halt(code: &mut Items<FlatStmt>, value: Arg) -> Result<(), Memory>
    ensures { OnOk result (Adds code.old code.new (only (flat.Halt value))) }
{
    put(code, FlatStmt::Halt(value))
}

/// A choice between two codes.
#[tactic(auto, using(crate::proofs::Emits::steps))]
pub fn put_if(
    code: &mut Items<FlatStmt>,
    test: Arg,
    yes: Items<FlatStmt>,
    no: Items<FlatStmt>,
) -> Result<(), Memory>
    ensures { OnOk result (Adds code.old code.new (only (flat.If test (code_of yes)
        (code_of no)))) }
{
    put(code, FlatStmt::If { test, yes, no })
}

/// A loop.
#[tactic(auto, using(crate::proofs::Emits::steps))]
pub fn put_loop(
    code: &mut Items<FlatStmt>,
    body: Items<FlatStmt>,
    post: Items<FlatStmt>,
) -> Result<(), Memory>
    ensures { OnOk result (Adds code.old code.new (only (flat.Loop (code_of body)
        (code_of post)))) }
{
    put(code, FlatStmt::Loop { body, post })
}

/// The end of a loop.
#[tactic(auto, using(crate::proofs::Emits::steps))]
pub fn put_break(code: &mut Items<FlatStmt>) -> Result<(), Memory>
    ensures { OnOk result (Adds code.old code.new (only flat.Break)) }
{
    put(code, FlatStmt::Break)
}

/// The next turn of a loop.
#[tactic(auto, using(crate::proofs::Emits::steps))]
pub fn put_continue(code: &mut Items<FlatStmt>) -> Result<(), Memory>
    ensures { OnOk result (Adds code.old code.new (only flat.Continue)) }
{
    put(code, FlatStmt::Continue)
}

/// A return, with or without a value.
#[tactic(auto, using(crate::proofs::Emits::steps))]
pub fn put_return(code: &mut Items<FlatStmt>, value: Option<Arg>) -> Result<(), Memory>
    ensures { OnOk result (Adds code.old code.new (only (flat.Return value))) }
{
    put(code, FlatStmt::Return(value))
}
