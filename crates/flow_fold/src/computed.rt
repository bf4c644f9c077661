//! Operations on constants alone.

ghost use Rattle.std.specs.Prelude.{◌≡◌, IfOk, slice_get};
ghost use Rattle.trips_isa.specs.Alu.{alu_of, word};
ghost use Rattle.flow_fold.specs.inside.Computed as values;

use crate::constants::{gives_constant, is_small};
use base::{Items, Memory};
use ir_forms::{FlowNode, FlowSource};
use std::alloc::Global;
use trips_isa::{Form, Op, alu, form_of};

// The number of 16 bits and a sign whose word it is.
fn short_of(w: u64) -> Option<i32>
    ensures { result ≡ values.short_of w }
{
    let i = w.cast_signed();
    if -32768 <= i && i < 32768 && i.cast_unsigned() == w {
        Some(i as i32)
    } else {
        None
    }
}

// The word of a node's immediate.
fn word_of(n: &FlowNode) -> u64
    ensures { result ≡ word n.now.imm }
{
    (n.imm as i64).cast_unsigned()
}

// What the operation of a node gives of two words, as such a number.
fn short_word(n: &FlowNode, a: u64, b: u64) -> Option<i32>
    ensures { result ≡ values.short_of (alu_of n.now.op a b) }
{
    short_of(alu(n.op, a, b))
}

// Whether a node gives a constant that is no label, wherever the block goes.
fn is_constant(c: &FlowNode) -> bool
    ensures { result ≡ values.is_constant c.now }
{
    gives_constant(c.op) && (c.guard.is_none() && c.imm < 65536)
}

// Whether an operation takes its right operand from its immediate.
fn is_immediate(form: Form) -> bool
    ensures { result ≡ values.is_immediate form }
{
    match form {
        Form::Immediate => true,
        _ => false,
    }
}

// Whether a node computes of one operand and an immediate that is no label, wherever the block goes.
fn computes(n: &FlowNode) -> bool
    ensures { result ≡ values.computes n.now }
{
    is_immediate(form_of(n.op)) && (n.guard.is_none() && is_small(n.imm))
}

// What a node computes of the constant that a node c gives, where it is such a number.
fn value_of(n: &FlowNode, c: &FlowNode) -> Option<i32>
    ensures { result ≡ values.value_of n.now c.now }
{
    if is_constant(c) {
        short_word(n, word_of(c), word_of(n))
    } else {
        None
    }
}

// A node that gives a number.
fn with_number(alloc: Global, n: &FlowNode, imm: i32) -> Result<FlowNode, Memory>
    ensures { IfOk result (λ m. m ≡ values.with_number n.now imm) }
{
    let right = Items::from_slice(alloc, n.right.as_slice())?;
    Ok(FlowNode {
        op: Op::Gens,
        imm,
        number: n.number,
        guard: n.guard,
        left: Items::new(alloc),
        right,
    })
}

// The same, where there is a number.
fn with_some(alloc: Global, n: &FlowNode, imm: Option<i32>) -> Result<Option<FlowNode>, Memory>
    ensures { IfOk result (λ o. o ≡ values.with_some n.now imm) }
{
    match imm {
        None => Ok(None),
        Some(imm) => {
            let m = with_number(alloc, n, imm)?;
            Ok(Some(m))
        }
    }
}

// The same of node k, as a node that gives the number.
fn computed_at(
    alloc: Global,
    nodes: &[FlowNode],
    n: &FlowNode,
    k: usize,
) -> Result<Option<FlowNode>, Memory>
    ensures { IfOk result (λ o. o ≡ values.computed_at n.now (slice_get nodes.now k)) }
{
    match nodes.get(k) {
        None => Ok(None),
        Some(c) => with_some(alloc, n, value_of(n, c)),
    }
}

// The same of the constant that some sources are alone.
fn computed_of(
    alloc: Global,
    nodes: &[FlowNode],
    n: &FlowNode,
    sources: &[FlowSource],
) -> Result<Option<FlowNode>, Memory>
    ensures { IfOk result (λ o. o ≡ values.computed_of nodes.now n.now sources.now) }
{
    match sources {
        [FlowSource::Node(k)] => computed_at(alloc, nodes, n, *k as usize),
        _ => Ok(None),
    }
}

/// A node that computes of a constant, as the constant that it gives.
pub fn computed(alloc: Global, nodes: &[FlowNode], n: &FlowNode) -> Result<Option<FlowNode>, Memory>
    ensures { IfOk result (λ o. o ≡ values.computed nodes.now n.now) }
{
    if computes(n) {
        computed_of(alloc, nodes, n, n.left.as_slice())
    } else {
        Ok(None)
    }
}

/// Whether a constant stands alone at the left, for a choice of which nothing is claimed.
pub fn may_compute(nodes: &[FlowNode], n: &FlowNode) -> bool {
    match n.left.as_slice() {
        [FlowSource::Node(k)] => match nodes.get(*k as usize) {
            None => false,
            Some(c) => n.guard.is_none() && is_constant(c),
        },
        _ => false,
    }
}
