//! Which covers are wanted.

ghost use Rattle.std.specs.Prelude.{◌≡◌, OnOk, IfOk, drop, length, ◌<◌, ◌^◌, slice_set, true};
ghost use Rattle.std.specs.Prelude.{not, None};
ghost use Rattle.null_outputs.specs.inside.Surely as surely;
ghost use Rattle.null_outputs.specs.inside.Wants as wanted;
ghost use Rattle.null_outputs.specs.inside.Surely.{firm_of};

use crate::surely::{left_open, right_open, sure};
use base::{Items, Memory};
use ir_forms::{FlowNode, FlowSource, FlowWrite, Guard};
use std::alloc::Global;

// One more node is wanted.
fn mark(wants: &mut Items<bool>, j: u32)
    ensures { wants.new ≡ wanted.mark wants.old j }
{
    if (j as usize) < wants.len() {
        wants.set(j as usize, true);
    }
}

// The node of a source is wanted.
fn mark_one(wants: &mut Items<bool>, s: FlowSource)
    ensures { wants.new ≡ wanted.mark_source wants.old s }
{
    match s {
        FlowSource::Read(_) => {}
        FlowSource::Node(j) => mark(wants, j),
    }
}

// The nodes of all sources of a list are.
fn mark_all(wants: &mut Items<bool>, sources: &[FlowSource])
    ensures { wants.new ≡ wanted.mark_all wants.old sources.now }
{
    for s in sources {
        mark_one(wants, *s);
    }
}

// The node of a guard is.
fn mark_guard(wants: &mut Items<bool>, g: Option<Guard>)
    ensures { wants.new ≡ wanted.mark_guard wants.old g }
{
    match g {
        None => {}
        Some(k) => mark(wants, k.node),
    }
}

// Those of a list are, where the test says so.
fn mark_if(yes: bool, wants: &mut Items<bool>, sources: &[FlowSource])
    ensures { wants.new ≡ wanted.mark_if yes wants.old sources.now }
{
    if yes {
        mark_all(wants, sources);
    }
}

// What the cover of a node wants.
fn mark_node(
    wants: &mut Items<bool>,
    alloc: Global,
    nodes: &[FlowNode],
    firm: &[bool],
    n: &FlowNode,
) -> Result<(), Memory>
    requires { length nodes.now < 2 ^ 32 }
    ensures { OnOk result (wants.new
        ≡ wanted.mark_node (surely.sure_of nodes.now (firm_of firm.now)) wants.old n.now) }
{
    let left = left_open(alloc, nodes, firm, n)?;
    let right = right_open(alloc, nodes, firm, n)?;
    mark_guard(wants, n.guard);
    mark_if(left, wants, n.left.as_slice());
    mark_if(right, wants, n.right.as_slice());
    Ok(())
}

/// Whether node j is wanted.
pub fn is_marked(wants: &[bool], j: usize) -> bool
    ensures { result ≡ firm_of wants.now j }
{
    j < wants.len() && wants[j]
}

// What the cover of node j wants, where it is wanted itself.
fn spread_at(
    wants: &mut Items<bool>,
    alloc: Global,
    nodes: &[FlowNode],
    firm: &[bool],
    j: usize,
    n: &FlowNode,
) -> Result<(), Memory>
    requires { length nodes.now < 2 ^ 32 }
    ensures { OnOk result (wants.new
        ≡ wanted.spread_at (surely.sure_of nodes.now (firm_of firm.now)) j n.now wants.old) }
{
    if is_marked(wants.as_slice(), j) {
        mark_node(wants, alloc, nodes, firm, n)?;
    }
    Ok(())
}

/// Takes the block's nodes from the last to the first.
pub fn spread(
    wants: &mut Items<bool>,
    alloc: Global,
    nodes: &[FlowNode],
    firm: &[bool],
) -> Result<(), Memory>
    requires { length nodes.now < 2 ^ 32 }
    ensures { OnOk result (wants.new
        ≡ wanted.spread (surely.sure_of nodes.now (firm_of firm.now)) wants.old 0 nodes.now) }
{
    let mut at = nodes.len();
    while at > 0 {
        at -= 1;
        spread_at(wants, alloc, nodes, firm, at, &nodes[at])?;
    }
    Ok(())
}

// The sources of a write that may get no token are wanted.
fn mark_write(
    wants: &mut Items<bool>,
    alloc: Global,
    nodes: &[FlowNode],
    firm: &[bool],
    w: &FlowWrite,
) -> Result<(), Memory>
    requires { length nodes.now < 2 ^ 32 }
    ensures { OnOk result (wants.new
        ≡ wanted.mark_if
        (not (surely.sure_of nodes.now (firm_of firm.now) None w.now.sources))
        wants.old w.now.sources) }
{
    let there = sure(alloc, nodes, firm, None, w.sources.as_slice())?;
    mark_if(!there, wants, w.sources.as_slice());
    Ok(())
}

/// What the writes want.
pub fn mark_writes(
    wants: &mut Items<bool>,
    alloc: Global,
    nodes: &[FlowNode],
    firm: &[bool],
    writes: &[FlowWrite],
) -> Result<(), Memory>
    requires { length nodes.now < 2 ^ 32 }
    ensures { OnOk result (wants.new
        ≡ wanted.mark_writes (surely.sure_of nodes.now (firm_of firm.now)) wants.old writes.now) }
{
    for w in writes {
        mark_write(wants, alloc, nodes, firm, w)?;
    }
    Ok(())
}
