//! The block in which marked nodes have no guard.
ghost use Rattle.std.specs.Prelude.{◌≡◌, IfOk, None, cond};
ghost use Rattle.flow_guards.specs.inside.Unguards as defined;
ghost use Rattle.flow_guards.specs.inside.Unguards.{marked};

use crate::judging::is_marked;
use base::{Items, Memory, Queue};
use ir_forms::{FlowBlock, FlowNode, Guard};
use std::alloc::Global;

// A guard, unless it is lost.
fn unless_lost(lost: bool, guard: Option<Guard>) -> Option<Guard>
    ensures { result ≡ cond lost None guard }
{
    if lost { None } else { guard }
}

// A node, without its guard where it loses that.
fn loosened(lost: bool, n: FlowNode) -> FlowNode
    ensures { result ≡ defined.loosened lost n }
{
    let FlowNode {
        op,
        imm,
        number,
        guard,
        left,
        right,
    } = n;
    FlowNode {
        op,
        imm,
        number,
        guard: unless_lost(lost, guard),
        left,
        right,
    }
}

// All nodes.
#[tactic(auto, using(crate::proofs::Chosen::loosened_turn))]
fn all_loosened(
    alloc: Global,
    marks: &[bool],
    nodes: Items<FlowNode>,
) -> Result<Items<FlowNode>, Memory>
    ensures { IfOk result (λ ns. ns ≡ defined.all_loosened (marked marks.now) 0 nodes) }
{
    let mut out = Items::from_vec(Vec::with_capacity(alloc, nodes.len())?);
    let mut rest = Queue::from_items(nodes);
    while let Some(n) = rest.pop() {
        let lost = is_marked(marks, out.len());
        out.push(loosened(lost, n))?;
    }
    Ok(out)
}

/// The block in which the marked nodes have no guard.
pub fn unguarded(alloc: Global, marks: &[bool], block: FlowBlock) -> Result<FlowBlock, Memory>
    ensures { IfOk result (λ g. g ≡ defined.unguarded (marked marks.now) block) }
{
    let FlowBlock {
        nodes,
        reads,
        writes,
        mask,
    } = block;
    let nodes = all_loosened(alloc, marks, nodes)?;
    Ok(FlowBlock {
        nodes,
        reads,
        writes,
        mask,
    })
}
