//! Blocks with what they come to, and plans with what they cut.

use crate::estimate::Estimate;
use crate::plans::greedy;
use base::{Items, Memory};
use ir_forms::{Arg, FlatFunc, FlatProgram, FlatStmt};
use reg_assign::Assigned;
use std::alloc::Global;
use trips_isa::Op;

/// The instructions, reads, writes and load/store numbers of a block.
fn parts(block: &Estimate) -> (u32, u32, u32, u32) {
    (block.insts, block.reads, block.writes, block.numbers)
}

#[test]
fn words_that_many_take_cost_movs(rt: HostRuntime) {
    let mut block = Estimate::empty();
    // a constant, and an operation that reads
    block.set(20, Op::Add, Arg::Var(0), Arg::Const(70_000));
    assert_eq!(rt; parts(&block), (3, 1, 1, 0), "one sum");
    // the write and another operation take the sum
    block.set(21, Op::Add, Arg::Var(8), Arg::Var(0));
    assert_eq!(rt; parts(&block), (4, 1, 2, 0), "two sums");
    // a third one takes each
    block.set(22, Op::Add, Arg::Var(8), Arg::Var(0));
    assert_eq!(rt; parts(&block), (7, 1, 3, 0), "three sums");
    // the write of the first sum goes, and with it a mov
    block.set(20, Op::Mov, Arg::Const(1), Arg::Const(0));
    assert_eq!(rt; parts(&block), (8, 1, 3, 0), "set again");
    // a load names one place
    block.load(23, Arg::Var(0));
    block.save(Arg::Const(8), Arg::Var(11));
    assert_eq!(rt; parts(&block), (13, 1, 4, 2), "a load and a store");
}

#[test]
fn a_bit_is_a_test_itself(rt: HostRuntime) {
    let mut block = Estimate::empty();
    block.set(20, Op::Tlt, Arg::Var(0), Arg::Var(1));
    block.test(Arg::Var(8));
    assert_eq!(rt; parts(&block), (3, 2, 1, 0), "a bit");
    let mut block = Estimate::empty();
    block.test(Arg::Var(8));
    assert_eq!(rt; parts(&block), (3, 1, 0, 0), "a word");
}

#[test]
fn a_bit_stays_one(rt: HostRuntime) {
    // its copy is a test itself
    let mut block = Estimate::empty();
    block.set(20, Op::Tlt, Arg::Var(0), Arg::Var(1));
    block.put(21, Arg::Var(8));
    block.test(Arg::Var(9));
    assert_eq!(rt; parts(&block), (4, 2, 2, 0), "a copied bit");
    // so is it behind an if in which nothing sets it
    let mut block = Estimate::empty();
    block.set(20, Op::Tlt, Arg::Var(0), Arg::Var(1));
    let legs = block.begin_legs(Arg::Var(2));
    block.put(21, Arg::Var(3));
    assert!(&rt; !block.has_bit(20), "no bit in a leg");
    let first = block.turn_leg(&legs);
    block.end_legs(&legs, &first);
    assert!(&rt; block.has_bit(20), "a bit behind an if");
    assert!(&rt; !block.has_bit(21), "no bit where a leg sets it");
}

#[test]
fn a_loops_test_is_made_once(rt: HostRuntime) {
    // a bit: the mov that keeps it, two exits, and two movs
    let mut block = Estimate::empty();
    block.set(20, Op::Tlt, Arg::Var(0), Arg::Var(1));
    block.merge(Arg::Var(8));
    assert_eq!(rt; (parts(&block), block.ifs), ((5, 2, 2, 0), 1), "a bit");
    // a word is made a bit twice
    let mut block = Estimate::empty();
    block.merge(Arg::Var(8));
    assert_eq!(rt; (parts(&block), block.ifs), ((6, 1, 1, 0), 2), "a word");
}

#[test]
fn legs_cost_guards_and_nulls(rt: HostRuntime) {
    let mut block = Estimate::empty();
    block.set(20, Op::Tlt, Arg::Var(0), Arg::Var(1));
    let legs = block.begin_legs(Arg::Var(8));
    // it takes the place that the bit still names
    block.set(21, Op::Mov, Arg::Var(2), Arg::Const(0));
    let first = block.turn_leg(&legs);
    // each takes the bit through a mov
    block.set(22, Op::Mov, Arg::Var(2), Arg::Const(0));
    block.set(23, Op::Mov, Arg::Var(3), Arg::Const(0));
    assert_eq!(rt; (parts(&block), block.ifs), ((6, 4, 1, 0), 1), "legs");
    // one leg keeps each register, so that nulls go to three writes
    block.end_legs(&legs, &first);
    assert_eq!(rt; parts(&block), (11, 4, 4, 0), "nulls");
}

/// A main that sets a variable so many times.
fn program(alloc: Global, sets: u32) -> Result<Assigned, Memory> {
    let mut body = Items::new(alloc);
    for _set in 0..sets {
        body.push(FlatStmt::Let {
            to: 0,
            op: Op::Add,
            a: Arg::Var(0),
            b: Arg::Const(1),
        })?;
    }
    body.push(FlatStmt::Return(Some(Arg::Var(0))))?;
    let mut functions = Items::new(alloc);
    functions.push(FlatFunc {
        params: 0,
        scalars: 1,
        arrays: 0,
        body,
    })?;
    Ok(Assigned {
        flat: FlatProgram {
            functions,
            bytes: Items::new(alloc),
            main: 0,
        },
        live: Items::new(alloc),
        groups: Items::new(alloc),
    })
}

/// How many answers there are, and how many of them are to cut.
fn answers(alloc: Global, sets: u32, rooms: &[u8]) -> Result<(u32, u32), Memory> {
    let assigned = program(alloc, sets)?;
    let plan = greedy(alloc, &assigned, rooms)?;
    let mut all: u32 = 0;
    let mut cuts: u32 = 0;
    for cut in plan.cuts.as_slice() {
        all = all.saturating_add(1);
        if *cut {
            cuts = cuts.saturating_add(1);
        }
    }
    Ok((all, cuts))
}

#[test]
fn blocks_hold_what_fits(rt: HostRuntime) {
    let rows: &[(u32, &[u8], u32)] = &[
        (60, &[0], 62),
        (60, &[], 62),
        (10, &[128], 0),
        (60, &[128], 1),
        (60, &[64], 2),
        (60, &[8], 20),
    ];
    for (sets, rooms, cuts) in rows {
        match answers(rt.alloc(), *sets, *rooms) {
            Err(_) => assert!(&rt; false, "memory"),
            Ok(found) => assert_eq!(rt; found, (sets.saturating_add(2), *cuts), "{sets} sets"),
        }
    }
}
