//! Copies that a node may look through.

ghost use Rattle.std.specs.Prelude.{◌≡◌, IfOk, slice_get};
ghost use Rattle.flow_fold.specs.inside.Copies as copies;

use base::{Items, Memory};
use ir_forms::{FlowNode, FlowSource, Guard};
use std::alloc::Global;
use trips_isa::{Op, Sense};

/// Whether an operation copies.
pub fn is_mov(op: Op) -> bool
    ensures { result ≡ copies.is_mov op }
{
    match op {
        Op::Mov => true,
        _ => false,
    }
}

// Whether two senses are one.
fn same_sense(a: Sense, b: Sense) -> bool
    ensures { result ≡ copies.same_sense a b }
{
    match (a, b) {
        (Sense::Always, Sense::Always) => true,
        (Sense::OnTrue, Sense::OnTrue) => true,
        (Sense::OnFalse, Sense::OnFalse) => true,
        _ => false,
    }
}

/// Whether a guard is surely met where another is.
pub fn covers(a: Option<Guard>, g: Option<Guard>) -> bool
    ensures { result ≡ copies.covers a g }
{
    match (a, g) {
        (None, _) => true,
        (Some(_), None) => false,
        (Some(a), Some(b)) => a.node == b.node && same_sense(a.sense, b.sense),
    }
}

// Whether a node copies wherever a node under a guard fires.
fn is_copy(c: &FlowNode, g: Option<Guard>) -> bool
    ensures { result ≡ copies.is_copy c.now g }
{
    is_mov(c.op) && covers(c.guard, g)
}

// What node k copies, where there is one, for a node under a guard.
fn copied_at(
    alloc: Global,
    nodes: &[FlowNode],
    k: usize,
    g: Option<Guard>,
) -> Result<Option<Items<FlowSource>>, Memory>
    ensures { IfOk result (λ o. o ≡ copies.copied_at (slice_get nodes.now k) g) }
{
    match nodes.get(k) {
        None => Ok(None),
        Some(c) => {
            if is_copy(c, g) {
                Ok(Some(Items::from_slice(alloc, c.left.as_slice())?))
            } else {
                Ok(None)
            }
        }
    }
}

/// What some sources of node j, which has a guard, are a copy of.
pub fn copied(
    alloc: Global,
    nodes: &[FlowNode],
    j: usize,
    g: Option<Guard>,
    sources: &[FlowSource],
) -> Result<Option<Items<FlowSource>>, Memory>
    ensures { IfOk result (λ o. o ≡ copies.copied nodes.now j g sources.now) }
{
    match sources {
        [FlowSource::Node(k)] => {
            if *k as usize == j {
                Ok(None)
            } else {
                copied_at(alloc, nodes, *k as usize, g)
            }
        }
        _ => Ok(None),
    }
}

/// The guard of a node that there is.
pub fn guard_of(nodes: &[FlowNode], i: usize) -> Option<Guard>
    ensures { result ≡ copies.guard_of (slice_get nodes.now i) }
{
    match nodes.get(i) {
        None => None,
        Some(n) => n.guard,
    }
}

// The guard by node i of a node j that has guard g, where the node of g copies node i under a guard.
fn guard_beyond(nodes: &[FlowNode], j: usize, g: Guard, a: Option<Guard>, i: u32) -> Option<Guard>
    ensures { result ≡ copies.guard_beyond nodes.now j g a i }
{
    if !(i as usize == j) && covers(a, guard_of(nodes, i as usize)) {
        Some(Guard {
            node: i,
            sense: g.sense,
        })
    } else {
        None
    }
}

// The guard by the one node that some sources are.
fn guard_by(
    nodes: &[FlowNode],
    j: usize,
    g: Guard,
    a: Option<Guard>,
    sources: &[FlowSource],
) -> Option<Guard>
    ensures { result ≡ copies.guard_by nodes.now j g a sources.now }
{
    match sources {
        [FlowSource::Node(i)] => guard_beyond(nodes, j, g, a, *i),
        _ => None,
    }
}

// The guard by what node k copies.
fn guard_at(nodes: &[FlowNode], j: usize, g: Guard, k: usize) -> Option<Guard>
    ensures { result ≡ copies.guard_at nodes.now j g (slice_get nodes.now k) }
{
    match nodes.get(k) {
        None => None,
        Some(c) => {
            if is_mov(c.op) {
                guard_by(nodes, j, g, c.guard, c.left.as_slice())
            } else {
                None
            }
        }
    }
}

/// The guard of node j by what the node of its guard copies.
pub fn guard_copied(nodes: &[FlowNode], j: usize, guard: Option<Guard>) -> Option<Guard>
    ensures { result ≡ copies.guard_copied nodes.now j guard }
{
    match guard {
        None => None,
        Some(g) => {
            if g.node as usize == j {
                None
            } else {
                guard_at(nodes, j, g, g.node as usize)
            }
        }
    }
}
