//! Nodes that take what stands behind their sources.

ghost use Rattle.std.specs.Prelude.{IfOk};
ghost use Rattle.flow_fold.specs.inside.Folds as folds;
ghost use Rattle.flow_fold.specs.inside.Replaces.{Replaces};

use crate::behind::{all_behind, is_looked_through};
use crate::folding::{with_left, with_node, with_right};
use crate::uses::{Uses, feeds_several};
use base::{Items, Memory};
use ir_forms::{FlowBlock, FlowNode};
use std::alloc::Global;

// What node j becomes by what stands behind its sources at the left.
fn left_joined(
    alloc: Global,
    nodes: &[FlowNode],
    marks: &[bool],
    j: usize,
    n: &FlowNode,
) -> Result<FlowNode, Memory>
    ensures { IfOk result (λ m. folds.Turns nodes.now j n.now m) }
{
    let sources = all_behind(alloc, nodes, marks, j, n.left.as_slice())?;
    let m = with_left(alloc, n, sources)?;
    Ok(m)
}

// What node j becomes by what stands behind its sources at the right.
fn right_joined(
    alloc: Global,
    nodes: &[FlowNode],
    marks: &[bool],
    j: usize,
    n: &FlowNode,
) -> Result<FlowNode, Memory>
    ensures { IfOk result (λ m. folds.Turns nodes.now j n.now m) }
{
    let sources = all_behind(alloc, nodes, marks, j, n.right.as_slice())?;
    let m = with_right(alloc, n, sources)?;
    Ok(m)
}

// A block whose node j takes what stands behind its sources at the left, where that is something else.
fn left_joined_at(
    alloc: Global,
    block: FlowBlock,
    j: usize,
    marks: &[bool],
) -> Result<FlowBlock, Memory>
    ensures { IfOk result (λ g. Replaces block g) }
{
    let nodes = block.nodes.as_slice();
    match nodes.get(j) {
        None => Ok(block),
        Some(n) => {
            if !is_looked_through(nodes, marks, j, n.left.as_slice()) {
                return Ok(block);
            }
            let m = left_joined(alloc, nodes, marks, j, n)?;
            Ok(with_node(block, j, m))
        }
    }
}

// The same at the right.
fn right_joined_at(
    alloc: Global,
    block: FlowBlock,
    j: usize,
    marks: &[bool],
) -> Result<FlowBlock, Memory>
    ensures { IfOk result (λ g. Replaces block g) }
{
    let nodes = block.nodes.as_slice();
    match nodes.get(j) {
        None => Ok(block),
        Some(n) => {
            if !is_looked_through(nodes, marks, j, n.right.as_slice()) {
                return Ok(block);
            }
            let m = right_joined(alloc, nodes, marks, j, n)?;
            Ok(with_node(block, j, m))
        }
    }
}

/// A block whose node j takes what stands behind its sources, but for nodes that are marked.
pub fn joined_at(
    alloc: Global,
    block: FlowBlock,
    j: usize,
    marks: &[bool],
) -> Result<FlowBlock, Memory>
    ensures { IfOk result (λ g. Replaces block g) }
{
    let left = left_joined_at(alloc, block, j, marks)?;
    let right = right_joined_at(alloc, left, j, marks)?;
    Ok(right)
}

// Whether a copy that takes several sources feeds several spots: each of the sources would feed as many.
fn joins_for_several(uses: &Uses, j: usize, n: &FlowNode) -> bool {
    n.left.len() > 1 && feeds_several(uses, j)
}

/// Marks of the nodes that are taken themselves, for a choice of which nothing is claimed.
pub fn joins(alloc: Global, block: &FlowBlock, uses: &Uses) -> Result<Items<bool>, Memory> {
    let mut marks = Items::from_vec(Vec::with_capacity(alloc, block.nodes.len())?);
    let mut j: usize = 0;
    for n in block.nodes.as_slice() {
        marks.push(joins_for_several(uses, j, n))?;
        j = j.saturating_add(1);
    }
    Ok(marks)
}
