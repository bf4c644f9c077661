//! Which nodes several places of a block take, for a choice of which nothing is claimed.

use base::{Items, Memory};
use ir_forms::{FlowBlock, FlowSource, Guard};
use std::alloc::Global;

/// Which nodes some place takes, and which two or more do.
#[derive(Drop)]
pub struct Uses {
    once: Items<bool>,
    more: Items<bool>,
}

fn at(table: &[bool], k: u32) -> bool {
    match table.get(k as usize) {
        None => false,
        Some(b) => *b,
    }
}

fn mark(table: &mut Items<bool>, k: u32) {
    if (k as usize) < table.len() {
        table.set(k as usize, true);
    }
}

fn count(uses: &mut Uses, k: u32) {
    if at(uses.once.as_slice(), k) {
        mark(&mut uses.more, k);
    } else {
        mark(&mut uses.once, k);
    }
}

fn count_sources(uses: &mut Uses, sources: &[FlowSource]) {
    for source in sources {
        match *source {
            FlowSource::Read(_) => {}
            FlowSource::Node(k) => count(uses, k),
        }
    }
}

fn count_guard(uses: &mut Uses, guard: Option<Guard>) {
    match guard {
        None => {}
        Some(g) => count(uses, g.node),
    }
}

/// The places that take what each node gives: operands, guards and writes.
pub fn uses_of(alloc: Global, block: &FlowBlock) -> Result<Uses, Memory> {
    let count = block.nodes.len();
    let mut uses = Uses {
        once: Items::from_vec(vec![in alloc; false; count]?),
        more: Items::from_vec(vec![in alloc; false; count]?),
    };
    for n in block.nodes.as_slice() {
        count_sources(&mut uses, n.left.as_slice());
        count_sources(&mut uses, n.right.as_slice());
        count_guard(&mut uses, n.guard);
    }
    for w in block.writes.as_slice() {
        count_sources(&mut uses, w.sources.as_slice());
    }
    Ok(uses)
}

/// Whether several places take node k.
pub fn are_several(uses: &Uses, k: u32) -> bool {
    at(uses.more.as_slice(), k)
}
