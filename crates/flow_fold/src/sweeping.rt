//! The pass *sweep*.

ghost use Rattle.std.specs.Prelude.{◌≡◌, length, nat_le, IfOk};
ghost use Rattle.ir_forms.specs.inside.FlowRegular as regular;
ghost use Rattle.flow_fold.specs.inside.Replaces.{Replaces};
ghost use Rattle.flow_fold.specs.inside.Sweeps as sweeps;

use crate::checking::may_sweep;
use crate::keeping::{any_goes, staying};
use crate::renumbering::kept;
use base::Memory;
use ir_forms::{FlowBlock, FlowNode, FlowSource, FlowWrite, Guard};
use std::alloc::Global;

// From so many nodes on they have no number.
const MOST_NODES: usize = 1 << 32;

// Whether two sources are the same read or the same node.
fn same_source(s: FlowSource, x: FlowSource) -> bool
    ensures { result ≡ regular.same_source s x }
{
    match (s, x) {
        (FlowSource::Read(a), FlowSource::Read(b)) => a == b,
        (FlowSource::Node(j), FlowSource::Node(k)) => j == k,
        _ => false,
    }
}

// Whether a source is among some.
fn is_among(s: FlowSource, sources: &[FlowSource]) -> bool
    ensures { result ≡ regular.is_among s sources.now }
{
    for x in sources {
        if same_source(s, *x) {
            return true;
        }
    }
    false
}

// Whether a guard names the source.
fn guards_by(s: FlowSource, g: Option<Guard>) -> bool
    ensures { result ≡ regular.guards_by s g }
{
    match g {
        None => false,
        Some(g) => same_source(s, FlowSource::Node(g.node)),
    }
}

// Whether an operand or a guard of some nodes names the source.
fn nodes_name(s: FlowSource, nodes: &[FlowNode]) -> bool
    ensures { result ≡ regular.nodes_name s nodes.now }
{
    for n in nodes {
        if is_among(s, n.left.as_slice()) {
            return true;
        }
        if is_among(s, n.right.as_slice()) {
            return true;
        }
        if guards_by(s, n.guard) {
            return true;
        }
    }
    false
}

// Whether one of some writes names the source.
fn writes_name(s: FlowSource, writes: &[FlowWrite]) -> bool
    ensures { result ≡ regular.writes_name s writes.now }
{
    for w in writes {
        if is_among(s, w.sources.as_slice()) {
            return true;
        }
    }
    false
}

// Whether anything in the block names the source.
fn is_named(block: &FlowBlock, s: FlowSource) -> bool
    ensures { result ≡ regular.is_named block.now s }
{
    nodes_name(s, block.nodes.as_slice()) || writes_name(s, block.writes.as_slice())
}

// Whether something in the block takes the word of each register of a list.
fn takes_all(block: &FlowBlock, reads: &[u8]) -> bool
    ensures { result ≡ sweeps.takes_all block.now reads.now }
{
    for r in reads {
        if !is_named(block, FlowSource::Read(*r)) {
            return false;
        }
    }
    true
}

// Whether a list speaks only of nodes that there are.
fn is_within(keeps: &[bool], block: &FlowBlock) -> bool
    ensures { result ≡ nat_le (length keeps.now) (length block.now.nodes) }
{
    keeps.len() <= block.nodes.len()
}

// A block of the nodes that a list keeps, where the others may go.
fn swept(alloc: Global, block: FlowBlock, keeps: &[bool]) -> Result<FlowBlock, Memory>
    ensures { IfOk result (λ g. Replaces block g) }
{
    if keeps.len() >= MOST_NODES {
        return Ok(block);
    }
    if !is_within(keeps, &block) {
        return Ok(block);
    }
    if !may_sweep(keeps, &block) {
        return Ok(block);
    }
    let less = kept(alloc, keeps, &block)?;
    if takes_all(&less, block.reads.as_slice()) {
        Ok(less)
    } else {
        Ok(block)
    }
}

/// The block without the nodes that nothing which stays names.
#[tactic(auto, using(crate::proofs::Following::stands_for_itself))]
pub fn sweep(alloc: Global, block: FlowBlock) -> Result<FlowBlock, Memory>
    ensures { IfOk result (λ g. Replaces block g) }
{
    let keeps = staying(alloc, &block)?;
    if any_goes(keeps.as_slice()) {
        let g = swept(alloc, block, keeps.as_slice())?;
        Ok(g)
    } else {
        Ok(block)
    }
}
