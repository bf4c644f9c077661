//! Where rules are tried: a choice of which nothing is claimed. A rule that is not tried would not apply.

use crate::copies::is_mov;
use ir_forms::{FlowBlock, FlowNode, FlowSource, Guard};
use trips_isa::{Form, Op, form_of};

// Whether a rule may take into another node what an operation gives: it copies, or gives or adds a constant.
fn may_go_into(op: Op) -> bool {
    match op {
        Op::Mov | Op::Genu | Op::Gens | Op::Addi | Op::Subi => true,
        _ => false,
    }
}

// Whether a rule may turn a node by its operation, whatever it takes.
fn may_turn(op: Op) -> bool {
    match op {
        Op::Addi | Op::Subi | Op::Tnei | Op::Teqi | Op::App => true,
        _ => false,
    }
}

fn may_go_at(nodes: &[FlowNode], k: u32) -> bool {
    match nodes.get(k as usize) {
        None => false,
        Some(c) => may_go_into(c.op),
    }
}

fn any_may_go(nodes: &[FlowNode], sources: &[FlowSource]) -> bool {
    for s in sources {
        if let FlowSource::Node(k) = *s {
            if may_go_at(nodes, k) {
                return true;
            }
        }
    }
    false
}

fn guard_may_go(nodes: &[FlowNode], guard: Option<Guard>) -> bool {
    match guard {
        None => false,
        Some(g) => may_go_at(nodes, g.node),
    }
}

/// Whether some rule of *fold* may turn node j, beside that which takes off its guard.
pub fn may_fold(block: &FlowBlock, j: usize) -> bool {
    let nodes = block.nodes.as_slice();
    match nodes.get(j) {
        None => false,
        Some(n) => {
            may_turn(n.op)
                || any_may_go(nodes, n.left.as_slice())
                || any_may_go(nodes, n.right.as_slice())
                || guard_may_go(nodes, n.guard)
        }
    }
}

/// Whether node j has a guard.
pub fn is_guarded(block: &FlowBlock, j: usize) -> bool {
    match block.nodes.get(j) {
        None => false,
        Some(n) => n.guard.is_some(),
    }
}

/// Whether node j has an operation.
pub fn does(block: &FlowBlock, j: usize, op: Op) -> bool {
    match block.nodes.get(j) {
        None => false,
        Some(n) => n.op == op,
    }
}

fn is_copy_at(nodes: &[FlowNode], sources: &[FlowSource]) -> bool {
    match sources {
        [FlowSource::Node(k)] => match nodes.get(*k as usize) {
            None => false,
            Some(c) => is_mov(c.op),
        },
        _ => false,
    }
}

/// Whether a copy stands alone at an operand of node j.
pub fn takes_copy(block: &FlowBlock, j: usize) -> bool {
    let nodes = block.nodes.as_slice();
    match nodes.get(j) {
        None => false,
        Some(n) => { is_copy_at(nodes, n.left.as_slice()) || is_copy_at(nodes, n.right.as_slice()) }
    }
}

/// Whether node j loads or stores at what a node gives.
pub fn has_address(block: &FlowBlock, j: usize) -> bool {
    match block.nodes.get(j) {
        None => false,
        Some(n) => matches!(form_of(n.op), Form::Load | Form::Store),
    }
}

/// Whether *stride* may turn node j: it adds, multiplies, loads or stores.
pub fn may_stride(block: &FlowBlock, j: usize) -> bool {
    match block.nodes.get(j) {
        None => false,
        Some(n) => match n.op {
            Op::Add | Op::Sub | Op::Addi | Op::Subi => true,
            Op::Mul | Op::Muli | Op::Sll | Op::Slli => true,
            _ => matches!(form_of(n.op), Form::Load | Form::Store),
        },
    }
}
