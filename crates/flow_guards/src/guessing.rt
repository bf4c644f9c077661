//! The nodes that lose their guards: all that are pure and guarded, but those that are seen where their guard is not
//! met, and those that a copy under their guard alone takes: it is the copy that goes. Nothing is claimed of them,
//! since they are judged.
use crate::guards::{guard_at, implies, is_pure, same_guard};
use crate::judging::is_marked;
use crate::uses::{Uses, are_several, uses_of};
use base::{Items, Memory};
use ir_forms::{FlowBlock, FlowNode, FlowSource, FlowWrite, Guard};
use std::alloc::Global;
use trips_isa::{Op, row_of};

/// Whether a node is pure and has a guard: else none loses one.
pub fn any_guarded(nodes: &[FlowNode]) -> bool {
    for n in nodes {
        if n.guard.is_some() && is_pure(n.op) {
            return true;
        }
    }
    false
}

/// Whether a node is marked.
pub fn any_marked(marks: &[bool]) -> bool {
    for mark in marks {
        if *mark {
            return true;
        }
    }
    false
}

// A mark of each node that is pure and has a guard.
fn pure_nodes(alloc: Global, nodes: &[FlowNode]) -> Result<Items<bool>, Memory> {
    let mut marks = Items::from_vec(Vec::with_capacity(alloc, nodes.len())?);
    for n in nodes {
        marks.push(n.guard.is_some() && is_pure(n.op))?;
    }
    Ok(marks)
}

// Node k keeps its guard.
fn keep(marks: &mut Items<bool>, k: u32) {
    if (k as usize) < marks.len() {
        marks.set(k as usize, false);
    }
}

// Each node of a list does.
fn keep_all(marks: &mut Items<bool>, sources: &[FlowSource]) {
    for x in sources {
        match *x {
            FlowSource::Read(_) => {}
            FlowSource::Node(k) => keep(marks, k),
        }
    }
}

// The node that a copy under the same guard copies, where the copy alone takes it: the copy then needs no guard.
fn keep_copied(
    marks: &mut Items<bool>,
    nodes: &[FlowNode],
    uses: &Uses,
    guard: Option<Guard>,
    sources: &[FlowSource],
) {
    match sources {
        [FlowSource::Node(k)] => {
            if same_guard(guard_at(nodes, *k), guard)
                && !are_several(uses, *k)
                && is_quick_at(nodes, *k)
            {
                keep(marks, *k);
            }
        }
        _ => {}
    }
}

// Whether an operation takes a cycle, so that waiting for a guard costs no more than copying would.
fn is_quick(op: Op) -> bool {
    row_of(op).latency == 1
}

// Whether node k is quick.
fn is_quick_at(nodes: &[FlowNode], k: u32) -> bool {
    match nodes.get(k as usize) {
        None => false,
        Some(n) => is_quick(n.op),
    }
}

// What a copy keeps that keeps its guard itself.
fn keep_copy(marks: &mut Items<bool>, nodes: &[FlowNode], uses: &Uses, j: usize) {
    match nodes.get(j) {
        None => {}
        Some(n) => match n.op {
            Op::Mov => {
                if !is_marked(marks.as_slice(), j) {
                    keep_copied(marks, nodes, uses, n.guard, n.left.as_slice());
                }
            }
            _ => {}
        },
    }
}

// What all copies keep, the last first.
fn keep_copies(marks: &mut Items<bool>, nodes: &[FlowNode], uses: &Uses) {
    let count = nodes.len();
    for i in 0..count {
        keep_copy(marks, nodes, uses, count - 1 - i);
    }
}

// The only source of an operand of a node with this guard, where it may be seen without its own.
fn keep_one(marks: &mut Items<bool>, nodes: &[FlowNode], inner: Option<Guard>, x: FlowSource) {
    match x {
        FlowSource::Read(_) => {}
        FlowSource::Node(k) => {
            if !implies(nodes, guard_at(nodes, k), inner) {
                keep(marks, k);
            }
        }
    }
}

// What an operand of a node with this guard keeps.
fn keep_operand(
    marks: &mut Items<bool>,
    nodes: &[FlowNode],
    inner: Option<Guard>,
    sources: &[FlowSource],
) {
    match sources {
        [] => {}
        [x] => keep_one(marks, nodes, inner, *x),
        _ => keep_all(marks, sources),
    }
}

// The node of a guard.
fn keep_guard(marks: &mut Items<bool>, guard: Option<Guard>) {
    match guard {
        None => {}
        Some(g) => keep(marks, g.node),
    }
}

// What the nodes keep.
fn keep_nodes(marks: &mut Items<bool>, nodes: &[FlowNode]) {
    for n in nodes {
        keep_guard(marks, n.guard);
        keep_operand(marks, nodes, n.guard, n.left.as_slice());
        keep_operand(marks, nodes, n.guard, n.right.as_slice());
    }
}

// What the writes keep.
fn keep_writes(marks: &mut Items<bool>, writes: &[FlowWrite]) {
    for w in writes {
        keep_all(marks, w.sources.as_slice());
    }
}

/// A mark of each node that loses its guard.
pub fn guessed(alloc: Global, block: &FlowBlock) -> Result<Items<bool>, Memory> {
    let nodes = block.nodes.as_slice();
    let mut marks = pure_nodes(alloc, nodes)?;
    keep_nodes(&mut marks, nodes);
    keep_writes(&mut marks, block.writes.as_slice());
    let uses = uses_of(alloc, block)?;
    keep_copies(&mut marks, nodes, &uses);
    Ok(marks)
}
