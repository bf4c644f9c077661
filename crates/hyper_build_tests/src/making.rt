//! A program with every statement, and plans for it.

use base::{Items, Memory};
use hyper_build::CutPlan;
use ir_forms::{Arg, FlatFunc, FlatProgram, FlatStmt};
use reg_assign::Assigned;
use std::alloc::Global;
use trips_isa::Op;

fn set(to: u16) -> FlatStmt {
    FlatStmt::Let {
        to,
        op: Op::Mov,
        a: Arg::Const(7),
        b: Arg::Const(0),
    }
}

fn only(alloc: Global, s: FlatStmt) -> Result<Items<FlatStmt>, Memory> {
    let mut all = Items::new(alloc);
    all.push(s)?;
    Ok(all)
}

fn put_looping(all: &mut Items<FlatStmt>, alloc: Global) -> Result<(), Memory> {
    let mut body = only(
        alloc,
        FlatStmt::If {
            test: Arg::Var(0),
            yes: only(alloc, FlatStmt::Break)?,
            no: Items::new(alloc),
        },
    )?;
    body.push(set(1))?;
    // a small if, which is an item under every plan
    let post = only(
        alloc,
        FlatStmt::If {
            test: Arg::Var(1),
            yes: only(alloc, set(2))?,
            no: Items::new(alloc),
        },
    )?;
    all.push(FlatStmt::Loop { body, post })?;
    Ok(())
}

fn put_single(all: &mut Items<FlatStmt>) -> Result<(), Memory> {
    all.push(set(3))?;
    all.push(FlatStmt::Frame { to: 0, at: 0 })?;
    all.push(FlatStmt::Load {
        to: 1,
        op: Op::Ld,
        address: Arg::Var(0),
    })?;
    all.push(FlatStmt::Save {
        op: Op::Sd,
        address: Arg::Var(0),
        value: Arg::Var(1),
    })?;
    Ok(())
}

/// 17 statements, with those inside of others.
fn every(alloc: Global) -> Result<Items<FlatStmt>, Memory> {
    let mut all = Items::new(alloc);
    put_looping(&mut all, alloc)?;
    put_single(&mut all)?;
    all.push(FlatStmt::Call {
        function: 0,
        args: Items::from_slice(alloc, &[Arg::Var(1)])?,
        to: Some(2),
    })?;
    all.push(FlatStmt::Put(Arg::Var(2)))?;
    all.push(FlatStmt::Get { to: 2 })?;
    all.push(FlatStmt::If {
        test: Arg::Var(2),
        yes: only(alloc, set(4))?,
        no: only(alloc, FlatStmt::Frame { to: 5, at: 0 })?,
    })?;
    all.push(FlatStmt::Return(Some(Arg::Var(2))))?;
    Ok(all)
}

/// A function that takes eight arguments.
fn function(alloc: Global) -> Result<FlatFunc, Memory> {
    Ok(FlatFunc {
        params: 8,
        scalars: 8,
        arrays: 8,
        body: every(alloc)?,
    })
}

fn two_groups(alloc: Global) -> Result<Items<Items<u16>>, Memory> {
    let mut groups = Items::new(alloc);
    groups.push(Items::from_slice(alloc, &[0])?)?;
    groups.push(Items::from_slice(alloc, &[1])?)?;
    Ok(groups)
}

/// The groups of two calls.
fn all_groups(alloc: Global) -> Result<Items<Items<Items<u16>>>, Memory> {
    let mut all = Items::new(alloc);
    all.push(two_groups(alloc)?)?;
    all.push(two_groups(alloc)?)?;
    Ok(all)
}

/// Two functions, of which the second is main; the call of each saves two groups.
pub fn program(alloc: Global) -> Result<Assigned, Memory> {
    let mut functions = Items::new(alloc);
    functions.push(function(alloc)?)?;
    functions.push(function(alloc)?)?;
    Ok(Assigned {
        flat: FlatProgram {
            functions,
            bytes: Items::new(alloc),
            main: 1,
        },
        live: Items::new(alloc),
        groups: all_groups(alloc)?,
    })
}

/// An if that does one statement where a variable is not 0.
fn where_set(alloc: Global, variable: u16, s: FlatStmt) -> Result<FlatStmt, Memory> {
    Ok(FlatStmt::If {
        test: Arg::Var(variable),
        yes: only(alloc, s)?,
        no: Items::new(alloc),
    })
}

/// What a loop has besides a break and an operation: a continue, and an operation as its last part.
#[derive(Clone, Copy)]
pub struct Looping {
    pub continues: bool,
    pub goes_on: bool,
}

/// A loop with a break and an operation.
fn loop_of(alloc: Global, of: Looping) -> Result<FlatStmt, Memory> {
    let mut body = only(alloc, where_set(alloc, 0, FlatStmt::Break)?)?;
    if of.continues {
        body.push(where_set(alloc, 1, FlatStmt::Continue)?)?;
    }
    body.push(set(1))?;
    let mut post = Items::new(alloc);
    if of.goes_on {
        post.push(set(2))?;
    }
    Ok(FlatStmt::Loop { body, post })
}

/// A main that is a loop and a return.
pub fn loop_alone(alloc: Global, of: Looping) -> Result<Assigned, Memory> {
    let mut body = only(alloc, loop_of(alloc, of)?)?;
    body.push(FlatStmt::Return(Some(Arg::Var(1))))?;
    let mut functions = Items::new(alloc);
    functions.push(FlatFunc {
        params: 0,
        scalars: 3,
        arrays: 0,
        body,
    })?;
    Ok(Assigned {
        flat: FlatProgram {
            functions,
            bytes: Items::new(alloc),
            main: 0,
        },
        live: Items::new(alloc),
        groups: Items::new(alloc),
    })
}

/// Answers for so many places, so many of each three of which are yes, the first first.
#[derive(Clone, Copy)]
pub struct Answers {
    pub places: u32,
    pub of_three: u32,
}

fn list(alloc: Global, answers: Answers) -> Result<Items<bool>, Memory> {
    let mut all = Items::new(alloc);
    for i in 0..answers.places {
        all.push(i % 3 < answers.of_three)?;
    }
    Ok(all)
}

/// A plan by its answers: where blocks are cut, and which ifs are joined.
pub fn plan(alloc: Global, cuts: Answers, joins: Answers) -> Result<CutPlan, Memory> {
    Ok(CutPlan {
        cuts: list(alloc, cuts)?,
        joins: list(alloc, joins)?,
    })
}
