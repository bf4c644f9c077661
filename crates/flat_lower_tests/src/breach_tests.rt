//! What the run of a flat program refuses, and what it permits just beside.
use crate::machine::Stop;
use crate::running::run;
use base::Items;
use ir_forms::{Arg, FlatFunc, FlatProgram, FlatStmt};
use std::alloc::{AllocError, Global};
use std::test::Fail;
use trips_isa::Op;

/// A statement over words and variables.
#[derive(Clone, Copy)]
enum Plain {
    Let(u16, Op, Arg, Arg),
    Load(Op, Arg),
    Save(Op, Arg),
    Call(u32),
    Break,
    Continue,
    Return,
    Halt,
}

fn statement(alloc: Global, plain: Plain) -> FlatStmt {
    match plain {
        Plain::Let(to, op, a, b) => FlatStmt::Let { to, op, a, b },
        Plain::Load(op, address) => FlatStmt::Load { to: 0, op, address },
        Plain::Save(op, address) => FlatStmt::Save {
            op,
            address,
            value: Arg::Const(5),
        },
        Plain::Call(function) => FlatStmt::Call {
            function,
            args: Items::new(alloc),
            to: Some(0),
        },
        Plain::Break => FlatStmt::Break,
        Plain::Continue => FlatStmt::Continue,
        Plain::Return => FlatStmt::Return(Some(Arg::Var(0))),
        Plain::Halt => FlatStmt::Halt(Arg::Var(0)),
    }
}

/// A function with one scalar and an array of eight bytes, whose address variables 64 and 80 hold.
fn function(alloc: Global, body: &[Plain]) -> Result<FlatFunc, AllocError> {
    let mut code = Items::new(alloc);
    code.push(FlatStmt::Frame { to: 64, at: 0 })?;
    code.push(FlatStmt::Frame { to: 80, at: 0 })?;
    for plain in body {
        code.push(statement(alloc, *plain))?;
    }
    Ok(FlatFunc {
        params: 0,
        scalars: 1,
        arrays: 8,
        body: code,
    })
}

/// The end of main with this body, beside a function that returns nothing and eight bytes of
/// globals.
fn stop_of(alloc: Global, body: &[Plain]) -> Result<Stop, AllocError> {
    let mut functions = Items::new(alloc);
    functions.push(function(alloc, body)?)?;
    functions.push(function(alloc, &[])?)?;
    let program = FlatProgram {
        functions,
        bytes: Items::from_slice(alloc, &[0, 0, 0, 0, 0, 0, 0, 7])?,
        main: 0,
    };
    let ran = run(alloc, &program, b"", 100)?;
    Ok(ran.stop)
}

const ARRAY: Arg = Arg::Var(64);

const SET: Plain = Plain::Let(0, Op::Mov, Arg::Const(3), Arg::Const(0));

const ROWS: &[(&str, &[Plain], Stop)] = &[
    (
        "a variable that is set",
        &[SET, Plain::Return],
        Stop::Done(Some(3)),
    ),
    ("a variable that is not set", &[Plain::Return], Stop::Wild),
    (
        "an end of the run, behind which nothing is done",
        &[SET, Plain::Halt, Plain::Break],
        Stop::Done(Some(3)),
    ),
    (
        "an end that gives what is not set",
        &[Plain::Halt],
        Stop::Wild,
    ),
    (
        "a global",
        &[Plain::Load(Op::Ld, Arg::Const(0)), Plain::Return],
        Stop::Done(Some(7)),
    ),
    (
        "beyond the globals",
        &[Plain::Load(Op::Ld, Arg::Const(8)), Plain::Return],
        Stop::Wild,
    ),
    (
        "an address that is not whole",
        &[Plain::Load(Op::Lw, Arg::Const(2)), SET],
        Stop::Wild,
    ),
    (
        "no load",
        &[Plain::Load(Op::Add, Arg::Const(0)), SET],
        Stop::Wild,
    ),
    (
        "an element that is not set",
        &[Plain::Load(Op::Ld, ARRAY), Plain::Return],
        Stop::Wild,
    ),
    (
        "half of an element",
        &[
            Plain::Save(Op::Sw, ARRAY),
            Plain::Load(Op::Ld, ARRAY),
            Plain::Return,
        ],
        Stop::Wild,
    ),
    (
        "an element",
        &[
            Plain::Save(Op::Sd, ARRAY),
            Plain::Load(Op::Ld, ARRAY),
            Plain::Return,
        ],
        Stop::Done(Some(5)),
    ),
    (
        "a store beyond the globals",
        &[Plain::Save(Op::Sb, Arg::Const(8)), SET],
        Stop::Wild,
    ),
    (
        "a store that is not whole",
        &[Plain::Save(Op::Sh, Arg::Const(1)), SET],
        Stop::Wild,
    ),
    (
        "a store beyond memory",
        &[Plain::Save(Op::Sd, Arg::Const(4_194_304)), SET],
        Stop::Wild,
    ),
    (
        "a division by zero",
        &[
            Plain::Let(0, Op::Divs, Arg::Const(1), Arg::Const(0)),
            Plain::Return,
        ],
        Stop::Wild,
    ),
    (
        "an unsigned division by zero",
        &[
            Plain::Let(0, Op::Divu, Arg::Const(1), Arg::Const(0)),
            Plain::Return,
        ],
        Stop::Wild,
    ),
    ("a break in no loop", &[Plain::Break], Stop::Wild),
    ("a continue in no loop", &[Plain::Continue], Stop::Wild),
    (
        "a function that is not there",
        &[Plain::Call(2)],
        Stop::Wild,
    ),
    (
        "a result that is not there",
        &[SET, Plain::Call(1), Plain::Return],
        Stop::Wild,
    ),
    (
        "a temporary over a call",
        &[
            Plain::Call(1),
            Plain::Save(Op::Sd, ARRAY),
            SET,
            Plain::Return,
        ],
        Stop::Done(Some(3)),
    ),
    (
        "a scratch variable over a call",
        &[
            Plain::Call(1),
            Plain::Save(Op::Sd, Arg::Var(80)),
            SET,
            Plain::Return,
        ],
        Stop::Wild,
    ),
    ("no return", &[SET], Stop::Done(None)),
];

#[test]
fn breaches_are_wild(rt: HostRuntime) -> Result<(), Fail> {
    for (name, body, stop) in ROWS {
        let found = stop_of(rt.alloc(), *body)?;
        assert_eq!(rt; found, *stop, "{name}");
    }
    Ok(())
}
