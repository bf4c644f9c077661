//! Whether a block is straight, so that nothing is added to it.
ghost use Rattle.std.specs.Prelude.{◌≡◌, ◌+◌, ◌≤◌, IfOk, length, ◌<◌, ◌^◌, drop};
ghost use Rattle.null_outputs.specs.inside.Tested as tested;

use crate::numbers::stores_of;
use crate::surely::{takes_left, takes_right};
use base::Memory;
use ir_forms::{FlowBlock, FlowNode, FlowSource, FlowWrite, Guard};
use std::alloc::Global;
use trips_isa::{in_mask, role_of};

// Whether a source stands before node y.
fn is_before(y: usize, s: FlowSource) -> bool
    ensures { result ≡ tested.is_before y s }
{
    match s {
        FlowSource::Read(_) => true,
        FlowSource::Node(j) => (j as usize) < y,
    }
}

// Whether a list has a source, and the first stands before node y.
fn is_fed(y: usize, sources: &[FlowSource]) -> bool
    ensures { result ≡ tested.is_fed y sources.now }
{
    match sources {
        [] => false,
        [s, ..] => is_before(y, *s),
    }
}

// The same of a list that is asked for.
fn fed_if(asked: bool, y: usize, sources: &[FlowSource]) -> bool
    ensures { result ≡ tested.fed_if asked y sources.now }
{
    !asked || is_fed(y, sources)
}

// Whether there is no guard.
fn is_unguarded(guard: Option<Guard>) -> bool
    ensures { result ≡ tested.is_unguarded guard }
{
    match guard {
        None => true,
        Some(_) => false,
    }
}

// Whether node y has no guard, and each operand that it takes is fed.
fn is_plain(y: usize, n: &FlowNode) -> bool
    ensures { result ≡ tested.is_plain y n.now }
{
    is_unguarded(n.guard)
        && fed_if(takes_left(role_of(n.op)), y, n.left.as_slice())
        && fed_if(takes_right(role_of(n.op)), y, n.right.as_slice())
}

// How many nodes are plain before the first that is not.
fn plain_front(nodes: &[FlowNode]) -> usize
    ensures { result ≡ tested.plain_front 0 nodes.now }
{
    let mut y = 0;
    for n in nodes {
        if !is_plain(y, n) {
            return y;
        }
        y += 1;
    }
    y
}

// Whether each write is fed.
fn all_fed(y: usize, writes: &[FlowWrite]) -> bool
    ensures { result ≡ tested.all_fed y writes.now }
{
    for w in writes {
        if !is_fed(y, w.sources.as_slice()) {
            return false;
        }
    }
    true
}

// Whether store number k has a store before node y, if the mask has it.
fn number_fed(alloc: Global, block: &FlowBlock, y: usize, k: u8) -> Result<bool, Memory>
    requires { length block.now.nodes < 2 ^ 32 }
    ensures { IfOk result (λ t. t ≡ tested.number_fed block.now y k) }
{
    if !in_mask(block.mask, k) {
        return Ok(true);
    }
    let stores = stores_of(alloc, block.nodes.as_slice(), k)?;
    Ok(is_fed(y, stores.as_slice()))
}

// The same of m numbers from k on.
fn numbers_fed(alloc: Global, block: &FlowBlock, y: usize, k: u8, m: u8) -> Result<bool, Memory>
    requires few { length block.now.nodes < 2 ^ 32 }
    requires numbers { k + m ≤ 32 }
    ensures { IfOk result (λ t. t ≡ tested.numbers_fed block.now y k m) }
{
    if m == 0 {
        return Ok(true);
    }
    let first = number_fed(alloc, block, y, k)?;
    if !first {
        return Ok(false);
    }
    let rest = numbers_fed(alloc, block, y, k + 1, m - 1)?;
    Ok(rest)
}

// The same of all numbers.
fn all_numbers_fed(alloc: Global, block: &FlowBlock, y: usize) -> Result<bool, Memory>
    requires { length block.now.nodes < 2 ^ 32 }
    ensures { IfOk result (λ t. t ≡ tested.all_numbers_fed block.now y) }
{
    numbers_fed(alloc, block, y, 0, 32)
}

/// Whether a block is straight.
pub fn is_straight(alloc: Global, block: &FlowBlock) -> Result<bool, Memory>
    requires { length block.now.nodes < 2 ^ 32 }
    ensures { IfOk result (λ t. t ≡ tested.is_straight block.now) }
{
    let front = plain_front(block.nodes.as_slice());
    if !all_fed(front, block.writes.as_slice()) {
        return Ok(false);
    }
    all_numbers_fed(alloc, block, front)
}
