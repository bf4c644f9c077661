//! Which nodes are to stay, in one pass from the last node to the first. Nothing is claimed of it: the sweep checks
//! it.

use crate::checking::is_idle;
use base::{Items, Memory};
use ir_forms::{FlowBlock, FlowNode, FlowSource, Guard};
use std::alloc::Global;

// The nodes that stay, as far as is known, and the registers whose words these take.
#[derive(Drop)]
struct Marks {
    stay: Items<bool>,
    taken: u128,
}

// A register as a bit.
fn bit_of(register: u8) -> u128 {
    if register < 128 { 1u128 << register } else { 0 }
}

fn mark(stay: &mut Items<bool>, k: usize) {
    if k < stay.len() {
        stay.set(k, true);
    }
}

fn mark_source(marks: &mut Marks, s: FlowSource) {
    match s {
        FlowSource::Read(r) => {
            marks.taken |= bit_of(r);
        }
        FlowSource::Node(k) => mark(&mut marks.stay, k as usize),
    }
}

fn mark_sources(marks: &mut Marks, sources: &[FlowSource]) {
    for s in sources {
        mark_source(marks, *s);
    }
}

fn mark_guard(marks: &mut Marks, guard: Option<Guard>) {
    match guard {
        None => {}
        Some(g) => mark(&mut marks.stay, g.node as usize),
    }
}

// All that a node takes stays.
fn mark_node(marks: &mut Marks, n: &FlowNode) {
    mark_sources(marks, n.left.as_slice());
    mark_sources(marks, n.right.as_slice());
    mark_guard(marks, n.guard);
}

fn mark_behind(stay: &mut Items<bool>, j: usize, sources: &[FlowSource]) {
    for s in sources {
        match *s {
            FlowSource::Read(_) => {}
            FlowSource::Node(k) => {
                if k as usize >= j {
                    mark(stay, k as usize);
                }
            }
        }
    }
}

// What a node of a lower number takes stays: it is looked at too late.
fn mark_late(stay: &mut Items<bool>, j: usize, n: &FlowNode) {
    mark_behind(stay, j, n.left.as_slice());
    mark_behind(stay, j, n.right.as_slice());
    match n.guard {
        None => {}
        Some(g) => {
            if g.node as usize >= j {
                mark(stay, g.node as usize);
            }
        }
    }
}

// What the writes take stays.
fn first_marks(alloc: Global, block: &FlowBlock) -> Result<Marks, Memory> {
    let nodes = block.nodes.as_slice();
    let count = nodes.len();
    let mut marks = Marks {
        stay: Items::from_vec(vec![in alloc; false; count]?),
        taken: 0,
    };
    for w in block.writes.as_slice() {
        mark_sources(&mut marks, w.sources.as_slice());
    }
    for j in 0..count {
        mark_late(&mut marks.stay, j, &nodes[j]);
    }
    Ok(marks)
}

fn reads_of(sources: &[FlowSource]) -> u128 {
    let mut reads = 0u128;
    for s in sources {
        match *s {
            FlowSource::Read(r) => {
                reads |= bit_of(r);
            }
            FlowSource::Node(_) => {}
        }
    }
    reads
}

// Whether a node takes one of some registers that no node behind it takes.
fn takes_last(marks: &Marks, n: &FlowNode, lost: u128) -> bool {
    lost != 0
        && ((reads_of(n.left.as_slice()) | reads_of(n.right.as_slice())) & lost & !marks.taken) != 0
}

fn is_marked(stay: &[bool], j: usize) -> bool {
    match stay.get(j) {
        None => true,
        Some(b) => *b,
    }
}

fn decide(marks: &mut Marks, j: usize, n: &FlowNode, lost: u128) {
    if is_marked(marks.stay.as_slice(), j) || !is_idle(n.op) || takes_last(marks, n, lost) {
        mark(&mut marks.stay, j);
        mark_node(marks, n);
    }
}

// The nodes that stay where some registers must still be taken.
fn decided(alloc: Global, block: &FlowBlock, lost: u128) -> Result<Marks, Memory> {
    let nodes = block.nodes.as_slice();
    let count = nodes.len();
    let mut marks = first_marks(alloc, block)?;
    for i in 0..count {
        let j = count - 1 - i;
        decide(&mut marks, j, &nodes[j], lost);
    }
    Ok(marks)
}

// The registers that are read and that nothing takes any more.
fn lost_of(reads: &[u8], taken: u128) -> u128 {
    let mut lost = 0u128;
    for r in reads {
        lost |= bit_of(*r) & !taken;
    }
    lost
}

/// For each node whether it is to stay: what it gives is taken by what stays, it does more than give a token, or it
/// alone takes a register that is read.
pub fn staying(alloc: Global, block: &FlowBlock) -> Result<Items<bool>, Memory> {
    let Marks { stay, taken } = decided(alloc, block, 0)?;
    let lost = lost_of(block.reads.as_slice(), taken);
    if lost == 0 {
        return Ok(stay);
    }
    let Marks { stay: more, .. } = decided(alloc, block, lost)?;
    Ok(more)
}

/// Whether a node is to go.
pub fn any_goes(keeps: &[bool]) -> bool {
    for b in keeps {
        if !*b {
            return true;
        }
    }
    false
}
