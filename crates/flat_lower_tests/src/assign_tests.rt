//! Small programs with the lists of their calls.

use base::{Items, Memory};
use ir_forms::{Arg, FlatFunc, FlatProgram, FlatStmt};
use reg_assign::assign;
use std::alloc::Global;
use std::process::Abort;
use trips_isa::Op;

/// A statement of a row's function.
#[derive(Clone, Copy, Debug)]
enum Line {
    Set(u16),
    Read(u16),
    Call(u16),
}

/// Whether the statements are a loop's body, the statements, and the list of each call.
type Row = (bool, &'static [Line], &'static [&'static [u16]]);

const ROWS: [Row; 8] = [
    (false, &[Line::Call(0), Line::Read(0)], &[&[]]),
    (
        false,
        &[Line::Set(0), Line::Call(1), Line::Read(0)],
        &[&[0]],
    ),
    (
        false,
        &[
            Line::Set(0),
            Line::Call(1),
            Line::Call(2),
            Line::Read(1),
            Line::Read(0),
        ],
        &[&[0], &[0, 1]],
    ),
    (false, &[Line::Call(1), Line::Set(0), Line::Read(0)], &[&[]]),
    (
        false,
        &[Line::Set(80), Line::Call(1), Line::Read(80)],
        &[&[]],
    ),
    (
        false,
        &[Line::Call(0), Line::Read(79), Line::Read(64)],
        &[&[64, 79]],
    ),
    (false, &[Line::Read(0), Line::Call(1)], &[&[]]),
    (true, &[Line::Read(0), Line::Call(1)], &[&[0]]),
];

fn stmt(alloc: Global, line: Line) -> FlatStmt {
    match line {
        Line::Set(to) => FlatStmt::Let {
            to,
            op: Op::Mov,
            a: Arg::Const(7),
            b: Arg::Const(0),
        },
        Line::Read(v) => FlatStmt::Put(Arg::Var(v)),
        Line::Call(to) => FlatStmt::Call {
            function: 0,
            args: Items::new(alloc),
            to: Some(to),
        },
    }
}

fn body(alloc: Global, in_loop: bool, lines: &[Line]) -> Result<Items<FlatStmt>, Memory> {
    let mut stmts = Items::new(alloc);
    for line in lines {
        stmts.push(stmt(alloc, *line))?;
    }
    if !in_loop {
        return Ok(stmts);
    }
    let mut all = Items::new(alloc);
    all.push(FlatStmt::Loop {
        body: stmts,
        post: Items::new(alloc),
    })?;
    Ok(all)
}

fn program(alloc: Global, in_loop: bool, lines: &[Line]) -> Result<FlatProgram, Memory> {
    let mut functions = Items::new(alloc);
    functions.push(FlatFunc {
        params: 0,
        scalars: 8,
        arrays: 0,
        body: body(alloc, in_loop, lines)?,
    })?;
    Ok(FlatProgram {
        functions,
        bytes: Items::new(alloc),
        main: 0,
    })
}

fn are_wanted(lists: &[Items<u16>], wanted: &[&[u16]]) -> bool {
    if lists.len() != wanted.len() {
        return false;
    }
    for (list, want) in lists.iter().zip(wanted) {
        if list.as_slice() != *want {
            return false;
        }
    }
    true
}

fn is_assigned(alloc: Global, in_loop: bool, lines: &[Line], wanted: &[&[u16]]) -> bool {
    let Ok(flat) = program(alloc, in_loop, lines) else {
        return false;
    };
    match assign(alloc, flat) {
        Err(_) => false,
        Ok(assigned) => are_wanted(assigned.live.as_slice(), wanted),
    }
}

fn assert_rows(rt: &impl Abort, alloc: Global, rows: &[Row]) {
    for (in_loop, lines, wanted) in rows {
        assert!(rt;
            is_assigned(alloc, *in_loop, lines, wanted),
            "{lines:?}, in a loop: {in_loop}"
        );
    }
}

#[test]
fn lists_what_is_read_behind_each_call(rt: HostRuntime) {
    assert_rows(&rt, rt.alloc(), &ROWS);
}
