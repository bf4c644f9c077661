//! Sums of sums that are one sum.

ghost use Rattle.std.specs.Prelude.{◌≡◌, ◌+ℤ◌, IfOk, slice_get};
ghost use Rattle.flow_fold.specs.inside.Offsets as offsets;
ghost use Rattle.flow_fold.specs.inside.Sums as sums;

use crate::constants::small_of;
use crate::copies::covers;
use crate::offsets::if_small;
use base::{Items, Memory};
use ir_forms::{FlowNode, FlowSource};
use std::alloc::Global;
use trips_isa::Op;

// The number that is added where a small number is subtracted.
fn negated(i: i32) -> Option<i32>
    ensures { result ≡ sums.negated i }
{
    if_small(i, i, 0 - i as i64)
}

// The small number that an operation with an immediate adds.
fn added_by(op: Op, imm: i32) -> Option<i32>
    ensures { result ≡ sums.added_by op imm }
{
    match op {
        Op::Addi => if_small(imm, imm, imm as i64),
        Op::Subi => negated(imm),
        _ => None,
    }
}

// The same where there is a number.
fn negated_some(imm: Option<i32>) -> Option<i32>
    ensures { result ≡ sums.negated_some imm }
{
    match imm {
        None => None,
        Some(i) => negated(i),
    }
}

/// The small number that a node adds to its left operand.
pub fn adds(nodes: &[FlowNode], c: &FlowNode) -> Option<i32>
    ensures { result ≡ sums.adds nodes.now c.now c.now.op }
{
    match c.op {
        Op::Add => small_of(nodes, c.right.as_slice()),
        Op::Sub => negated_some(small_of(nodes, c.right.as_slice())),
        Op::Addi => added_by(Op::Addi, c.imm),
        Op::Subi => added_by(Op::Subi, c.imm),
        _ => None,
    }
}

// The sum of two numbers, where all three are small.
fn small_sum(a: i32, b: i32) -> Option<i32>
    ensures { result ≡ offsets.if_small a b (b +ℤ a) }
{
    if_small(a, b, b as i64 + a as i64)
}

// The same where both are there.
fn at_once(a: Option<i32>, b: Option<i32>) -> Option<i32>
    ensures { result ≡ sums.at_once a b }
{
    match a {
        None => None,
        Some(a) => match b {
            None => None,
            Some(b) => small_sum(a, b),
        },
    }
}

// What a node adds with what another adds that fires wherever it does.
fn sum_of(nodes: &[FlowNode], n: &FlowNode, c: &FlowNode) -> Option<i32>
    ensures { result ≡ sums.sum_of nodes.now n.now c.now }
{
    if covers(c.guard, n.guard) {
        at_once(adds(nodes, c), added_by(n.op, n.imm))
    } else {
        None
    }
}

// A node that adds a number to what another takes at its left.
fn with_sum(alloc: Global, n: &FlowNode, c: &FlowNode, imm: i32) -> Result<FlowNode, Memory>
    ensures { IfOk result (λ m. m ≡ sums.with_sum n.now c.now.left imm) }
{
    let left = Items::from_slice(alloc, c.left.as_slice())?;
    let right = Items::from_slice(alloc, n.right.as_slice())?;
    Ok(FlowNode {
        op: Op::Addi,
        imm,
        number: n.number,
        guard: n.guard,
        left,
        right,
    })
}

// The same, where there is a number.
fn with_some(
    alloc: Global,
    n: &FlowNode,
    c: &FlowNode,
    sum: Option<i32>,
) -> Result<Option<FlowNode>, Memory>
    ensures { IfOk result (λ o. o ≡ sums.with_some n.now c.now sum) }
{
    match sum {
        None => Ok(None),
        Some(imm) => {
            let m = with_sum(alloc, n, c, imm)?;
            Ok(Some(m))
        }
    }
}

// A node that adds what node k adds too, where there is one.
fn added_at(
    alloc: Global,
    nodes: &[FlowNode],
    n: &FlowNode,
    k: usize,
) -> Result<Option<FlowNode>, Memory>
    ensures { IfOk result (λ o. o ≡ sums.added_at nodes.now n.now (slice_get nodes.now k)) }
{
    match nodes.get(k) {
        None => Ok(None),
        Some(c) => with_some(alloc, n, c, sum_of(nodes, n, c)),
    }
}

/// Node j with two sums in one: sources at its left are one other node that adds.
pub fn added(
    alloc: Global,
    nodes: &[FlowNode],
    j: usize,
    n: &FlowNode,
    sources: &[FlowSource],
) -> Result<Option<FlowNode>, Memory>
    ensures { IfOk result (λ o. o ≡ sums.added nodes.now j n.now sources.now) }
{
    match sources {
        [FlowSource::Node(k)] => {
            if *k as usize == j {
                Ok(None)
            } else {
                added_at(alloc, nodes, n, *k as usize)
            }
        }
        _ => Ok(None),
    }
}

// Whether a node that fires wherever another does adds to one source, for a choice of which nothing is claimed.
fn adds_to_one(nodes: &[FlowNode], n: &FlowNode, source: FlowSource) -> bool {
    match source {
        FlowSource::Read(_) => false,
        FlowSource::Node(k) => match nodes.get(k as usize) {
            None => false,
            Some(c) => { covers(c.guard, n.guard) && c.left.len() == 1 && adds(nodes, c).is_some() }
        },
    }
}

/// Whether a node adds a small constant to what adds one to one source, for a choice of which nothing is claimed.
pub fn may_add(nodes: &[FlowNode], n: &FlowNode) -> bool {
    match n.left.as_slice() {
        [source] => adds(nodes, n).is_some() && adds_to_one(nodes, n, *source),
        _ => false,
    }
}
