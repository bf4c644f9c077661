//! Writes that take what copies copy.

ghost use Rattle.std.specs.Prelude.{◌≡◌, map, length, IfOk};
ghost use Rattle.flow_fold.specs.inside.Draws as draws;
ghost use Rattle.flow_fold.specs.inside.Replaces.{Replaces};

use crate::behind::all_behind;
use base::{Items, Memory};
use ir_forms::{FlowBlock, FlowNode, FlowWrite};
use std::alloc::Global;

// A write that takes what stands behind its sources.
fn drawn_write(
    alloc: Global,
    nodes: &[FlowNode],
    marks: &[bool],
    w: &FlowWrite,
) -> Result<FlowWrite, Memory>
    ensures { IfOk result (λ v. v ≡ draws.drawn_write nodes.now marks.now w.now) }
{
    let sources = all_behind(alloc, nodes, marks, nodes.len(), w.sources.as_slice())?;
    Ok(FlowWrite {
        register: w.register,
        sources,
    })
}

// Writes that do.
fn drawn_writes(
    alloc: Global,
    nodes: &[FlowNode],
    marks: &[bool],
    writes: &[FlowWrite],
) -> Result<Items<FlowWrite>, Memory>
    ensures { IfOk result (λ vs. vs ≡ map (draws.drawn_write nodes.now marks.now) writes.now) }
{
    let mut out = Items::new(alloc);
    for w in writes {
        out.push(drawn_write(alloc, nodes, marks, w)?)?;
    }
    Ok(out)
}

// A block with other writes.
fn with_writes(block: FlowBlock, writes: Items<FlowWrite>) -> FlowBlock
    ensures { result ≡ draws.with_writes block writes }
{
    let FlowBlock {
        nodes,
        reads,
        writes: _old,
        mask,
    } = block;
    FlowBlock {
        nodes,
        reads,
        writes,
        mask,
    }
}

/// A block whose writes take what the copies that they took, but for marked ones, copy.
pub fn drawn(alloc: Global, block: FlowBlock, marks: &[bool]) -> Result<FlowBlock, Memory>
    ensures { IfOk result (λ g. Replaces block g) }
{
    let nodes = block.nodes.as_slice();
    let old = block.writes.as_slice();
    let writes = drawn_writes(alloc, nodes, marks, old)?;
    Ok(with_writes(block, writes))
}
