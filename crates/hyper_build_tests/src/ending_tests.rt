//! A run that is ended within calls and a loop, under each plan.

use crate::machine::Stop;
use crate::running::{Cuts, built, run};
use base::{Items, Memory};
use ir_forms::{Arg, FlatFunc, FlatProgram, FlatStmt};
use reg_assign::assign;
use std::alloc::Global;
use std::process::Abort;
use trips_isa::Op;

fn function(body: Items<FlatStmt>) -> FlatFunc {
    FlatFunc {
        params: 0,
        scalars: 1,
        arrays: 8,
        body,
    }
}

fn call(alloc: Global, function: u32) -> FlatStmt {
    FlatStmt::Call {
        function,
        args: Items::new(alloc),
        to: Some(0),
    }
}

/// Calls the second function, and puts out B.
fn main(alloc: Global) -> Result<FlatFunc, Memory> {
    let mut body = Items::new(alloc);
    body.push(call(alloc, 1))?;
    body.push(FlatStmt::Put(Arg::Const(66)))?;
    body.push(FlatStmt::Return(Some(Arg::Const(1))))?;
    Ok(function(body))
}

/// Puts out A, and calls the third function for ever.
fn turning(alloc: Global) -> Result<FlatFunc, Memory> {
    let mut turn = Items::new(alloc);
    turn.push(call(alloc, 2))?;
    let mut body = Items::new(alloc);
    body.push(FlatStmt::Put(Arg::Const(65)))?;
    body.push(FlatStmt::Loop {
        body: turn,
        post: Items::new(alloc),
    })?;
    Ok(function(body))
}

/// Ends the run with 7, before it puts out C.
fn ending(alloc: Global) -> Result<FlatFunc, Memory> {
    let mut leg = Items::new(alloc);
    leg.push(FlatStmt::Halt(Arg::Var(0)))?;
    let mut body = Items::new(alloc);
    body.push(FlatStmt::Let {
        to: 0,
        op: Op::Mov,
        a: Arg::Const(7),
        b: Arg::Const(0),
    })?;
    body.push(FlatStmt::If {
        test: Arg::Var(0),
        yes: leg,
        no: Items::new(alloc),
    })?;
    body.push(FlatStmt::Put(Arg::Const(67)))?;
    body.push(FlatStmt::Return(None))?;
    Ok(function(body))
}

fn program(alloc: Global) -> Result<FlatProgram, Memory> {
    let mut functions = Items::new(alloc);
    functions.push(main(alloc)?)?;
    functions.push(turning(alloc)?)?;
    functions.push(ending(alloc)?)?;
    Ok(FlatProgram {
        functions,
        bytes: Items::new(alloc),
        main: 0,
    })
}

const PLANS: &[Cuts] = &[
    Cuts::Everywhere,
    Cuts::EverywhereJoined,
    Cuts::Nowhere,
    Cuts::NowhereJoined,
    Cuts::EachThird,
    Cuts::EachThirdJoined,
];

fn assert_ended(rt: &impl Abort, alloc: Global, plans: &[Cuts]) {
    let flat = program(alloc).expect(rt, "memory");
    let assigned = assign(alloc, flat).expect(rt, "memory");
    for cuts in plans {
        let hyper = built(rt, alloc, &assigned, *cuts);
        let ran = run(rt, alloc, &hyper, &[], b"");
        assert_eq!(rt; ran.stop, Stop::Ended(7), "{cuts:?}");
        assert_eq!(rt; ran.output.as_slice(), b"A".as_slice(), "{cuts:?}");
    }
}

/// Neither the loop nor the callers go on, and the value is the program's result.
#[test]
fn a_run_is_ended_from_within_calls(rt: HostRuntime) {
    assert_ended(&rt, rt.alloc(), PLANS);
}
