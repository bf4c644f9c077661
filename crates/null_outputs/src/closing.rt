//! Whether the covers that were found are all that are wanted.

ghost use Rattle.std.specs.Prelude.{◌≡◌, OnOk, IfOk, drop, length, ◌<◌, ◌^◌, ◌&&◌, ◌||◌, not};
ghost use Rattle.trips_isa.specs.Forms as forms;
ghost use Rattle.null_outputs.specs.inside.Surely as surely;
ghost use Rattle.null_outputs.specs.inside.Wants as wanted;
ghost use Rattle.null_outputs.specs.inside.Surely.{firm_of};

use crate::numbers::{is_open_store, open_stores};
use crate::surely::{left_open, right_open, sure};
use crate::wanting::{is_marked, mark_writes, spread};
use base::{Items, Memory};
use ir_forms::{FlowBlock, FlowNode, FlowSource, FlowWrite, Guard};
use std::alloc::Global;

/// The nodes whose covers a pass finds to be wanted.
pub fn wants(alloc: Global, block: &FlowBlock, firm: &[bool]) -> Result<Items<bool>, Memory>
    requires { length block.now.nodes < 2 ^ 32 }
    ensures { IfOk result (λ found. found
        ≡ wanted.wants_of (surely.sure_of block.now.nodes (firm_of firm.now)) block.now) }
{
    let mut found = open_stores(alloc, block, firm)?;
    mark_writes(
        &mut found,
        alloc,
        block.nodes.as_slice(),
        firm,
        block.writes.as_slice(),
    )?;
    spread(&mut found, alloc, block.nodes.as_slice(), firm)?;
    Ok(found)
}

// Whether the node of a source is wanted.
fn is_wanted(wants: &[bool], s: FlowSource) -> bool
    ensures { result ≡ wanted.source_wanted (firm_of wants.now) s }
{
    match s {
        FlowSource::Read(_) => true,
        FlowSource::Node(j) => is_marked(wants, j as usize),
    }
}

// Whether all nodes of a list are wanted.
fn each_wanted(wants: &[bool], sources: &[FlowSource]) -> bool
    ensures { result ≡ wanted.each_wanted (firm_of wants.now) sources.now }
{
    for s in sources {
        if !is_wanted(wants, *s) {
            return false;
        }
    }
    true
}

// Whether the node of a guard is.
fn guard_wanted(wants: &[bool], g: Option<Guard>) -> bool
    ensures { result ≡ wanted.guard_wanted (firm_of wants.now) g }
{
    match g {
        None => true,
        Some(k) => is_marked(wants, k.node as usize),
    }
}

// Whether all that the cover of a node names is wanted.
fn node_closed(
    alloc: Global,
    nodes: &[FlowNode],
    firm: &[bool],
    wants: &[bool],
    n: &FlowNode,
) -> Result<bool, Memory>
    requires { length nodes.now < 2 ^ 32 }
    ensures { IfOk result (λ yes. yes
        ≡ wanted.node_closed (surely.sure_of nodes.now (firm_of firm.now)) (firm_of wants.now)
        n.now) }
{
    let left = left_open(alloc, nodes, firm, n)?;
    let right = right_open(alloc, nodes, firm, n)?;
    Ok(
        guard_wanted(wants, n.guard)
            && (!left || each_wanted(wants, n.left.as_slice()))
            && (!right || each_wanted(wants, n.right.as_slice())),
    )
}

// Whether the sources of a write that may get no token are wanted.
fn write_closed(
    alloc: Global,
    nodes: &[FlowNode],
    firm: &[bool],
    wants: &[bool],
    w: &FlowWrite,
) -> Result<bool, Memory>
    requires { length nodes.now < 2 ^ 32 }
    ensures { IfOk result (λ yes. yes
        ≡ wanted.write_closed (surely.sure_of nodes.now (firm_of firm.now)) (firm_of wants.now)
        w.now) }
{
    let there = sure(alloc, nodes, firm, None, w.sources.as_slice())?;
    Ok(there || each_wanted(wants, w.sources.as_slice()))
}

// Whether that holds of all writes.
fn writes_closed(
    alloc: Global,
    nodes: &[FlowNode],
    firm: &[bool],
    wants: &[bool],
    writes: &[FlowWrite],
) -> Result<bool, Memory>
    requires { length nodes.now < 2 ^ 32 }
    ensures { IfOk result (λ yes. yes
        ≡ wanted.writes_closed (surely.sure_of nodes.now (firm_of firm.now))
        (firm_of wants.now) writes.now) }
{
    for w in writes {
        if !write_closed(alloc, nodes, firm, wants, w)? {
            return Ok(false);
        }
    }
    Ok(true)
}

// Whether all that the cover of a node names is wanted, where that cover is wanted.
fn closed_if(
    alloc: Global,
    nodes: &[FlowNode],
    firm: &[bool],
    wants: &[bool],
    asked: bool,
    n: &FlowNode,
) -> Result<bool, Memory>
    requires { length nodes.now < 2 ^ 32 }
    ensures { IfOk result (λ yes. yes
        ≡ (not asked || wanted.node_closed (surely.sure_of nodes.now (firm_of firm.now))
        (firm_of wants.now) n.now)) }
{
    if !asked {
        return Ok(true);
    }
    let closed = node_closed(alloc, nodes, firm, wants, n)?;
    Ok(closed)
}

// What the test says of node j.
fn one_closed(
    alloc: Global,
    block: &FlowBlock,
    firm: &[bool],
    wants: &[bool],
    j: usize,
    n: &FlowNode,
) -> Result<bool, Memory>
    requires { length block.now.nodes < 2 ^ 32 }
    ensures { IfOk result (λ yes. yes
        ≡ wanted.one_closed (surely.sure_of block.now.nodes (firm_of firm.now))
        (firm_of wants.now) block.now j n.now) }
{
    let wanted = is_marked(wants, j);
    let closed = closed_if(alloc, block.nodes.as_slice(), firm, wants, wanted, n)?;
    let open = is_open_store(alloc, block, firm, n)?;
    Ok(closed && (!open || wanted))
}

// Whether the test holds of all nodes.
fn nodes_closed(
    alloc: Global,
    block: &FlowBlock,
    firm: &[bool],
    wants: &[bool],
) -> Result<bool, Memory>
    requires { length block.now.nodes < 2 ^ 32 }
    ensures { IfOk result (λ yes. yes
        ≡ wanted.nodes_closed (surely.sure_of block.now.nodes (firm_of firm.now))
        (firm_of wants.now) block.now 0 block.now.nodes) }
{
    let mut j = 0;
    for n in block.nodes.as_slice() {
        if !one_closed(alloc, block, firm, wants, j, n)? {
            return Ok(false);
        }
        j += 1;
    }
    Ok(true)
}

/// Whether what covers something is itself among the covers.
pub fn is_closed(
    alloc: Global,
    block: &FlowBlock,
    firm: &[bool],
    wants: &[bool],
) -> Result<bool, Memory>
    requires { length block.now.nodes < 2 ^ 32 }
    ensures { IfOk result (λ yes. yes
        ≡ wanted.is_closed (surely.sure_of block.now.nodes (firm_of firm.now))
        (firm_of wants.now) block.now) }
{
    let nodes = nodes_closed(alloc, block, firm, wants)?;
    let writes = writes_closed(
        alloc,
        block.nodes.as_slice(),
        firm,
        wants,
        block.writes.as_slice(),
    )?;
    Ok(nodes && writes)
}
