//! Which registers are alive at the entry of each block: a guess, and whether it is closed.
ghost use Rattle.std.specs.Prelude.{◌≡◌, IsTrue, IfOk, map, length};
ghost use Rattle.ir_forms.specs.inside.HyperViews.{block_of, tail_of};
ghost use Rattle.hyper_trim.specs.inside.Alive as spec;
ghost use Rattle.hyper_trim.specs.inside.Alive.{IsClosed};
ghost use Rattle.hyper_trim.specs.inside.Walked.{Holds};

use crate::sets::{bit, is_within, read_by, without};
use crate::walking::{Walk, seen_through, walked};
use base::{Items, Memory};
use ir_forms::{Exit, HyperBlock, Tail};
use std::alloc::Global;

/// What a table says of a label.
fn alive_at(table: &[u128], l: u32) -> u128
    ensures { result ≡ spec.alive_at table.now l }
{
    if table.len() == 0 {
        return 0;
    }
    match table.get(l as usize) {
        None => table[0],
        Some(a) => *a,
    }
}

fn live_exit(table: &[u128], ret: u128, exit: Exit) -> u128
    ensures { result ≡ spec.live_exit table.now ret exit }
{
    match exit {
        Exit::Jump(l) => alive_at(table, l),
        Exit::Call { to, back: _ } => without(alive_at(table, to), bit(2)),
        Exit::Return => ret | bit(2),
        Exit::System(l) => alive_at(table, l) | (bit(0) | bit(3)),
    }
}

fn live_tail(tail: &Tail, table: &[u128], ret: u128) -> u128
    ensures { result ≡ spec.live_tail table.now ret (tail_of tail.now) }
{
    match tail {
        Tail::Leave(exit) => live_exit(table, ret, *exit),
        Tail::Test { test, yes, no } => {
            live_tail(yes.get(), table, ret) | live_tail(no.get(), table, ret) | read_by(*test)
        }
    }
}

fn lasting_exit(table: &[u128], ret: u128, exit: Exit) -> u128
    ensures { result ≡ spec.lasting_exit table.now ret exit }
{
    match exit {
        Exit::Jump(l) => alive_at(table, l),
        Exit::Call { to, back: _ } => alive_at(table, to),
        Exit::Return => ret,
        Exit::System(l) => alive_at(table, l) | (bit(0) | bit(3)),
    }
}

/// What outlasts a block with a tail.
pub fn lasting_tail(tail: &Tail, table: &[u128], ret: u128) -> u128
    ensures { result ≡ spec.lasting_tail table.now ret (tail_of tail.now) }
{
    match tail {
        Tail::Leave(exit) => lasting_exit(table, ret, *exit),
        Tail::Test { test, yes, no } => {
            let _test = *test;
            lasting_tail(yes.get(), table, ret) | lasting_tail(no.get(), table, ret)
        }
    }
}

/// A block's items, trimmed, the last first.
pub fn walked_block(
    block: &HyperBlock,
    alloc: Global,
    table: &[u128],
    ret: u128,
) -> Result<Walk, Memory>
    ensures { IfOk result (λ w. Holds (spec.trim_items table.now ret (block_of block.now)) w) }
{
    let live = live_tail(&block.tail, table, ret);
    walked(block.items.as_slice(), alloc, false, live)
}

/// All that is alive at the entry of some block.
pub fn union(table: &[u128]) -> u128 {
    let mut all = 0;
    for a in table {
        all = all | *a;
    }
    all
}

/// What is alive at the entry of a block, as the walk over it finds. No list of items is made.
fn alive_before(block: &HyperBlock, table: &[u128], ret: u128) -> u128 {
    let live = live_tail(&block.tail, table, ret);
    seen_through(block.items.as_slice(), false, live).live
}

/// How many rounds a guess takes at most.
const ROUNDS: u32 = 64;

/// One round over all blocks, from the last to the first; whether more was found to be alive.
fn round(blocks: &[HyperBlock], table: &mut Items<u128>) -> bool {
    let mut more = false;
    let ret = union(table.as_slice());
    let mut at = blocks.len();
    while at > 0 {
        at -= 1;
        let live = alive_before(&blocks[at], table.as_slice(), ret);
        if at < table.len() && !is_within(live, table.as_slice()[at]) {
            let all = table.as_slice()[at] | live;
            table.set(at, all);
            more = true;
        }
    }
    more
}

/// A table for a program. Nothing is promised of it.
pub fn guess(blocks: &[HyperBlock], alloc: Global) -> Result<Items<u128>, Memory> {
    let mut table = Items::new(alloc);
    for _b in blocks {
        table.push(0)?;
    }
    for _round in 0..ROUNDS {
        if !round(blocks, &mut table) {
            return Ok(table);
        }
    }
    Ok(table)
}

/// Whether each entry of a table is among what is alive behind a return.
fn returns_within(table: &[u128], ret: u128) -> bool
    ensures { IsTrue result → spec.AllWithin table.now ret }
{
    for a in table {
        if !is_within(*a, ret) {
            return false;
        }
    }
    true
}

/// Whether a table has all that is alive at the entry of each block.
fn blocks_within(
    blocks: &[HyperBlock],
    alloc: Global,
    table: &[u128],
    ret: u128,
) -> Result<bool, Memory>
    requires { length table.now ≡ length blocks.now }
    ensures { IfOk result (λ yes. IsTrue yes → spec.HasBlocks table.now ret table.now (map block_of blocks.now)) }
{
    for at in 0..blocks.len() {
        let walk = walked_block(&blocks[at], alloc, table, ret)?;
        if !is_within(walk.live, table[at]) {
            return Ok(false);
        }
    }
    Ok(true)
}

/// Whether a table is closed.
pub fn is_closed(
    blocks: &[HyperBlock],
    alloc: Global,
    table: &[u128],
    ret: u128,
) -> Result<bool, Memory>
    ensures { IfOk result (λ yes. IsTrue yes → IsClosed table.now ret (map block_of blocks.now)) }
{
    if table.len() != blocks.len() || !returns_within(table, ret) {
        return Ok(false);
    }
    blocks_within(blocks, alloc, table, ret)
}
