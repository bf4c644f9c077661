//! A block with all that is added.
ghost use Rattle.std.specs.Prelude.{◌≡◌, IfOk, length, ◌<◌, ◌^◌};
ghost use Rattle.null_outputs.specs.inside.Completed as defined;
ghost use Rattle.null_outputs.specs.inside.Wants as wanted;
ghost use Rattle.null_outputs.specs.inside.Listed as listed;

use crate::closing::{is_closed, wants};
use crate::emission::{push_guards, push_lefts, push_rights, push_writes};
use crate::filling::all_filled;
use crate::places::{Guess, Starts};
use crate::regions::{guard_region, left_region, right_region};
use crate::stores::push_stores;
use crate::surely::firms;
use base::{Items, Memory};
use ir_forms::{FlowBlock, FlowNode, FlowWrite};
use std::alloc::Global;

// What is guessed of a block.
fn guessed(alloc: Global, block: &FlowBlock) -> Result<Guess, Memory>
    requires { length block.now.nodes < 2 ^ 32 }
    ensures { IfOk result (λ g. listed.IsGuess block.now g) }
{
    let firm = firms(alloc, block.nodes.as_slice())?;
    let found = wants(alloc, block, firm.as_slice())?;
    let closed = is_closed(alloc, block, firm.as_slice(), found.as_slice())?;
    Ok(Guess {
        firm,
        closed,
        wants: found,
    })
}

// Where its covers stand.
fn placed(alloc: Global, nodes: &[FlowNode], guess: &Guess) -> Result<Starts, Memory>
    requires { length nodes.now < 2 ^ 32 }
    ensures { IfOk result (λ s. listed.AreStarts nodes.now guess.now s) }
{
    let on_true = guard_region(alloc, nodes, guess, true, nodes.len() as u32)?;
    let on_false = guard_region(alloc, nodes, guess, false, on_true.end)?;
    let left = left_region(alloc, nodes, guess, on_false.end)?;
    let right = right_region(alloc, nodes, guess, left.end)?;
    Ok(Starts {
        on_true,
        on_false,
        left,
        right,
    })
}

// What is added, region after region.
fn added(
    alloc: Global,
    block: &FlowBlock,
    guess: &Guess,
    starts: &Starts,
) -> Result<Items<FlowNode>, Memory>
    requires { length block.now.nodes < 2 ^ 32 }
    ensures { IfOk result (λ ns. listed.AreStarts block.now.nodes guess.now starts.now
        → ns
        ≡ defined.added (listed.sure_in_guess block.now.nodes guess.now)
        (listed.want_in_guess guess.now) block.now) }
{
    let nodes = block.nodes.as_slice();
    let mut out = Items::new(alloc);
    push_guards(&mut out, alloc, nodes, guess, starts, true)?;
    push_guards(&mut out, alloc, nodes, guess, starts, false)?;
    push_lefts(&mut out, alloc, nodes, guess, starts)?;
    push_rights(&mut out, alloc, nodes, guess, starts)?;
    push_writes(
        &mut out,
        alloc,
        nodes,
        guess,
        starts,
        block.writes.as_slice(),
    )?;
    push_stores(&mut out, alloc, block, guess, starts)?;
    Ok(out)
}

// The block with these nodes behind its own, and with these writes.
fn with_added(
    block: FlowBlock,
    added: Items<FlowNode>,
    writes: Items<FlowWrite>,
) -> Result<FlowBlock, Memory>
    ensures { IfOk result (λ c. c ≡ listed.with_added block added writes) }
{
    let FlowBlock {
        mut nodes,
        reads,
        writes: _,
        mask,
    } = block;
    nodes.append(added)?;
    Ok(FlowBlock {
        nodes,
        reads,
        writes,
        mask,
    })
}

/// The completed block, whatever its size.
pub fn completed(alloc: Global, block: FlowBlock) -> Result<FlowBlock, Memory>
    requires { length block.nodes < 2 ^ 32 }
    ensures { IfOk result (λ c. c ≡ wanted.complete block) }
{
    let guess = guessed(alloc, &block)?;
    let nodes = block.nodes.as_slice();
    let starts = placed(alloc, nodes, &guess)?;
    let more = added(alloc, &block, &guess, &starts)?;
    let writes = all_filled(
        alloc,
        nodes,
        &guess,
        &starts,
        starts.right.end,
        block.writes.as_slice(),
    )?;
    let whole = with_added(block, more, writes)?;
    Ok(whole)
}
