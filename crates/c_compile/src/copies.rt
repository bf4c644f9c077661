//! How many turns of a self loop its block does.
ghost use Rattle.std.specs.Prelude.{◌≤◌, All, IfOk, OnOk};

use crate::rooms::is_too_big;
use base::{Items, Memory};
use grid_place::Placing;
use hyper_build::{CutPlan, build};
use hyper_narrow::{NarrowedBlock, NarrowedProgram};
use ir_forms::Tail;
use loop_unroll::loop_of;
use reg_assign::Assigned;
use std::alloc::Global;

/// One turn fewer.
fn fewer(times: u8) -> u8
    ensures { result ≤ times }
{
    times.saturating_sub(1)
}

/// As many turns as are asked for in the block of a self loop, and one in another.
fn wanted_of(tail: &Tail, number: u32, copies: u8) -> u8
    requires some { 1 ≤ copies }
    ensures { result ≤ copies }
{
    match loop_of(number, tail) {
        None => 1,
        Some(_) => copies,
    }
}

/// As many turns as are asked for of each self loop that a plan makes, and one of each other block.
#[tactic(auto, using(crate::proofs::AskedTurns::entry_more))]
fn each_wanted(
    alloc: Global,
    assigned: &Assigned,
    plan: &CutPlan,
    copies: u8,
) -> Result<Items<u8>, Memory>
    requires some { 1 ≤ copies }
    ensures { IfOk result (λ ts. All (λ t. t ≤ copies) ts) }
{
    let program = build(alloc, assigned, plan)?;
    let mut all = Items::new(alloc);
    let mut number: u32 = 0;
    for block in program.blocks.as_slice() {
        all.push(wanted_of(&block.tail, number, copies))?;
        number = number.saturating_add(1);
    }
    Ok(all)
}

/// So many turns of each self loop that a plan makes; where one alone is asked for, no list is needed.
#[tactic(auto, using(crate::proofs::AskedTurns::none_asked))]
pub fn wanted(
    alloc: Global,
    assigned: &Assigned,
    plan: &CutPlan,
    copies: u8,
) -> Result<Items<u8>, Memory>
    requires some { 1 ≤ copies }
    ensures { IfOk result (λ ts. All (λ t. t ≤ copies) ts) }
{
    if copies > 1 {
        each_wanted(alloc, assigned, plan, copies)
    } else {
        Ok(Items::new(alloc))
    }
}

/// One turn fewer in one block; whether it had more than one.
pub fn lessen_one(times: &mut Items<u8>, copies: u8, at: usize) -> bool
    requires low { All (λ t. t ≤ copies) times.old }
    ensures low { All (λ t. t ≤ copies) times.new }
{
    let now = match times.get(at) {
        None => return false,
        Some(now) => *now,
    };
    if now <= 1 || at >= times.len() {
        return false;
    }
    times.set(at, fewer(now));
    true
}

/// Whether the block of a self loop with several turns is refused for its size.
fn is_refused(
    alloc: Global,
    block: &NarrowedBlock,
    placing: Placing,
    times: &[u8],
    at: usize,
) -> Result<bool, Memory> {
    match times.get(at) {
        None => Ok(false),
        Some(now) => {
            if *now <= 1 {
                return Ok(false);
            }
            is_too_big(alloc, block, placing)
        }
    }
}

/// One turn fewer in a block of several that is refused for its size; whether it is one.
fn lessen_refused(
    alloc: Global,
    block: &NarrowedBlock,
    placing: Placing,
    times: &mut Items<u8>,
    copies: u8,
    at: usize,
) -> Result<bool, Memory>
    requires low { All (λ t. t ≤ copies) times.old }
    ensures low { OnOk result (All (λ t. t ≤ copies) times.new) }
{
    if is_refused(alloc, block, placing, times.as_slice(), at)? {
        Ok(lessen_one(times, copies, at))
    } else {
        Ok(false)
    }
}

/// One turn fewer in each block of several that is refused for its size; whether there is one.
pub fn lessen_all(
    alloc: Global,
    program: &NarrowedProgram,
    placing: Placing,
    times: &mut Items<u8>,
    copies: u8,
) -> Result<bool, Memory>
    requires low { All (λ t. t ≤ copies) times.old }
    ensures low { OnOk result (All (λ t. t ≤ copies) times.new) }
{
    let mut some = false;
    let mut at: usize = 0;
    for block in program.blocks.as_slice() {
        let lessened = lessen_refused(alloc, block, placing, times, copies, at)?;
        if lessened {
            some = true;
        }
        at = at.saturating_add(1);
    }
    Ok(some)
}
