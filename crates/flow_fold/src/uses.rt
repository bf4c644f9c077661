//! Which nodes feed more than one spot, for a choice of which nothing is claimed.

use base::{Items, Memory};
use ir_forms::{FlowBlock, FlowSource, Guard};
use std::alloc::Global;

// From so many spots on a node feeds several.
const SEVERAL: u8 = 2;

/// How many spots each node feeds, as far as a byte counts: one is a target, and two are two of a form G, and a `mov`
/// behind a form I.
#[derive(Drop)]
pub struct Uses {
    spots: Items<u8>,
}

fn count_node(uses: &mut Uses, j: usize) {
    let old = match uses.spots.get(j) {
        None => return,
        Some(spots) => *spots,
    };
    uses.spots.set(j, old.saturating_add(1));
}

fn count_sources(uses: &mut Uses, sources: &[FlowSource]) {
    for source in sources {
        match *source {
            FlowSource::Read(_) => {}
            FlowSource::Node(k) => count_node(uses, k as usize),
        }
    }
}

fn count_guard(uses: &mut Uses, guard: Option<Guard>) {
    match guard {
        None => {}
        Some(g) => count_node(uses, g.node as usize),
    }
}

/// The spots of nodes and writes that take what each node gives.
pub fn uses_of(alloc: Global, block: &FlowBlock) -> Result<Uses, Memory> {
    let count = block.nodes.len();
    let mut uses = Uses {
        spots: Items::from_vec(vec![in alloc; 0u8; count]?),
    };
    for n in block.nodes.as_slice() {
        count_sources(&mut uses, n.left.as_slice());
        count_sources(&mut uses, n.right.as_slice());
        count_guard(&mut uses, n.guard);
    }
    for w in block.writes.as_slice() {
        count_sources(&mut uses, w.sources.as_slice());
    }
    Ok(uses)
}

/// Whether node j feeds two spots or more.
pub fn feeds_several(uses: &Uses, j: usize) -> bool {
    match uses.spots.get(j) {
        None => false,
        Some(spots) => *spots >= SEVERAL,
    }
}
