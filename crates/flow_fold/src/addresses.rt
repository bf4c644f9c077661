//! Whether a node feeds addresses alone, for a choice of which nothing is claimed.

use ir_forms::{FlowBlock, FlowNode, FlowSource};
use trips_isa::{Form, form_of};

fn is_node(source: FlowSource, j: usize) -> bool {
    match source {
        FlowSource::Read(_) => false,
        FlowSource::Node(k) => k as usize == j,
    }
}

fn names(sources: &[FlowSource], j: usize) -> bool {
    for source in sources {
        if is_node(*source, j) {
            return true;
        }
    }
    false
}

// Whether a node takes node j nowhere but alone as the address of a load or a store.
fn spares(n: &FlowNode, j: usize) -> bool {
    if names(n.right.as_slice(), j) {
        return false;
    }
    if let Some(g) = n.guard {
        if g.node as usize == j {
            return false;
        }
    }
    if names(n.left.as_slice(), j) {
        match form_of(n.op) {
            Form::Load | Form::Store => n.left.len() == 1,
            _ => false,
        }
    } else {
        true
    }
}

/// Whether node j goes nowhere but into addresses of loads and stores that have no other.
pub fn feeds_addresses(block: &FlowBlock, j: usize) -> bool {
    for n in block.nodes.as_slice() {
        if !spares(n, j) {
            return false;
        }
    }
    for w in block.writes.as_slice() {
        if names(w.sources.as_slice(), j) {
            return false;
        }
    }
    true
}
