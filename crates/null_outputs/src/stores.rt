//! The null stores.
ghost use Rattle.std.specs.Prelude.{◌≡◌, ◌++◌, ◌∷◌, ◌+◌, ◌≤◌, suc, OnOk, IfOk, length, ◌<◌, ◌^◌};
ghost use Rattle.null_outputs.specs.inside.Covers as covers;
ghost use Rattle.null_outputs.specs.inside.Listed as listed;

use crate::lists::{list_top, push_list};
use crate::numbers::{number_open, stores_of};
use crate::places::{Guess, Starts, plus};
use base::{Items, Memory};
use ir_forms::{FlowBlock, FlowNode, FlowSource};
use std::alloc::Global;
use trips_isa::Op;

// A null store of number k where the sources give a null.
fn null_store(alloc: Global, k: u8, sources: Items<FlowSource>) -> Result<FlowNode, Memory>
    ensures { IfOk result (λ n. n ≡ covers.null_store_of k sources) }
{
    let left = Items::from_slice(alloc, sources.as_slice())?;
    Ok(FlowNode {
        op: Op::Sb,
        imm: 0,
        number: k,
        guard: None,
        left,
        right: sources,
    })
}

// The null store of number k, and the nodes that it takes its nulls from.
fn push_store(
    out: &mut Items<FlowNode>,
    alloc: Global,
    nodes: &[FlowNode],
    guess: &Guess,
    starts: &Starts,
    p: u32,
    k: u8,
    stores: &[FlowSource],
) -> Result<(), Memory>
    requires { length nodes.now < 2 ^ 32 }
    ensures { OnOk result (out.new
        ≡ out.old
        ++ (covers.null_store_of k
        (covers.list_top (listed.cover_in nodes.now guess.now starts.now) (suc p) stores.now)
        ∷ covers.list_nodes (listed.cover_in nodes.now guess.now starts.now) (suc p) stores.now)) }
{
    let next = plus(p, 1)?;
    let top = list_top(alloc, nodes, guess, starts, next, stores)?;
    out.push(null_store(alloc, k, top)?)?;
    push_list(out, alloc, nodes, guess, starts, next, stores)
}

// The same where the number may get no store.
fn push_number(
    out: &mut Items<FlowNode>,
    alloc: Global,
    block: &FlowBlock,
    guess: &Guess,
    starts: &Starts,
    p: u32,
    k: u8,
) -> Result<(), Memory>
    requires { length block.now.nodes < 2 ^ 32 }
    ensures { OnOk result (out.new
        ≡ out.old
        ++ listed.number_part_by (listed.sure_in_guess block.now.nodes guess.now)
        (listed.cover_in block.now.nodes guess.now starts.now) block.now p k) }
{
    if number_open(alloc, block, guess.firm.as_slice(), k)? {
        let nodes = block.nodes.as_slice();
        let stores = stores_of(alloc, nodes, k)?;
        push_store(out, alloc, nodes, guess, starts, p, k, stores.as_slice())?;
    }
    Ok(())
}

// The groups of m store numbers from k on.
fn push_numbers(
    out: &mut Items<FlowNode>,
    alloc: Global,
    block: &FlowBlock,
    guess: &Guess,
    starts: &Starts,
    k: u8,
    m: u8,
) -> Result<(), Memory>
    requires few { length block.now.nodes < 2 ^ 32 }
    requires numbers { k + m ≤ 32 }
    ensures { OnOk result (out.new
        ≡ out.old
        ++ listed.numbers_by (listed.sure_in_guess block.now.nodes guess.now)
        (listed.cover_in block.now.nodes guess.now starts.now) block.now
        (length block.now.nodes + length out.old) k m) }
{
    if m == 0 {
        return Ok(());
    }
    let p = plus(block.nodes.len() as u32, out.len())?;
    push_number(out, alloc, block, guess, starts, p, k)?;
    push_numbers(out, alloc, block, guess, starts, k + 1, m - 1)?;
    Ok(())
}

/// The groups of all store numbers.
pub fn push_stores(
    out: &mut Items<FlowNode>,
    alloc: Global,
    block: &FlowBlock,
    guess: &Guess,
    starts: &Starts,
) -> Result<(), Memory>
    requires { length block.now.nodes < 2 ^ 32 }
    ensures { OnOk result (out.new
        ≡ out.old
        ++ listed.all_numbers_by (listed.sure_in_guess block.now.nodes guess.now)
        (listed.cover_in block.now.nodes guess.now starts.now) block.now
        (length block.now.nodes + length out.old)) }
{
    push_numbers(out, alloc, block, guess, starts, 0, 32)
}
