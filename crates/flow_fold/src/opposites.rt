//! Tests of a test against 0 that are the opposite test.

ghost use Rattle.std.specs.Prelude.{◌≡◌, IfOk, slice_get};
ghost use Rattle.flow_fold.specs.inside.Opposites as opposites;

use crate::constants::{is_small, small_of};
use crate::copies::covers;
use crate::tests::is_zero;
use crate::uses::{Uses, feeds_several};
use base::{Items, Memory};
use ir_forms::{FlowNode, FlowSource};
use std::alloc::Global;
use trips_isa::{Form, Op, form_of};

// The test that holds where another does not.
fn opposite_of(op: Op) -> Option<Op>
    ensures { result ≡ opposites.opposite_of op }
{
    match op {
        Op::Teq => Some(Op::Tne),
        Op::Tne => Some(Op::Teq),
        Op::Tlt => Some(Op::Tge),
        Op::Tle => Some(Op::Tgt),
        Op::Tgt => Some(Op::Tle),
        Op::Tge => Some(Op::Tlt),
        Op::Tltu => Some(Op::Tgeu),
        Op::Tleu => Some(Op::Tgtu),
        Op::Tgtu => Some(Op::Tleu),
        Op::Tgeu => Some(Op::Tltu),
        Op::Teqi => Some(Op::Tnei),
        Op::Tnei => Some(Op::Teqi),
        Op::Tlti => Some(Op::Tgei),
        Op::Tlei => Some(Op::Tgti),
        Op::Tgti => Some(Op::Tlei),
        Op::Tgei => Some(Op::Tlti),
        Op::Tltui => Some(Op::Tgeui),
        Op::Tleui => Some(Op::Tgtui),
        Op::Tgtui => Some(Op::Tleui),
        Op::Tgeui => Some(Op::Tltui),
        _ => None,
    }
}

// Whether an operation tells whether its operand is its immediate.
fn is_teqi(op: Op) -> bool
    ensures { result ≡ opposites.is_teqi op }
{
    match op {
        Op::Teqi => true,
        _ => false,
    }
}

// Whether a form takes its right operand from a node.
fn is_general(form: Form) -> bool
    ensures { result ≡ opposites.is_general form }
{
    match form {
        Form::General => true,
        _ => false,
    }
}

// Whether there is no source.
fn is_empty(sources: &[FlowSource]) -> bool
    ensures { result ≡ opposites.is_empty sources.now }
{
    match sources {
        [] => true,
        [_, ..] => false,
    }
}

// Whether another operation may take the operands of a node.
fn hands_on(c: &FlowNode) -> bool
    ensures { result ≡ opposites.hands_on c.now }
{
    is_small(c.imm) && (is_general(form_of(c.op)) || is_empty(c.right.as_slice()))
}

// A node that tests the other way what another tests.
fn with_opposite(alloc: Global, n: &FlowNode, c: &FlowNode, op: Op) -> Result<FlowNode, Memory>
    ensures { IfOk result (λ m. m ≡ opposites.with_opposite n.now c.now op) }
{
    let left = Items::from_slice(alloc, c.left.as_slice())?;
    let right = Items::from_slice(alloc, c.right.as_slice())?;
    Ok(FlowNode {
        op,
        imm: c.imm,
        number: n.number,
        guard: n.guard,
        left,
        right,
    })
}

// The same, where there is such a test.
fn with_some(
    alloc: Global,
    n: &FlowNode,
    c: &FlowNode,
    op: Option<Op>,
) -> Result<Option<FlowNode>, Memory>
    ensures { IfOk result (λ o. o ≡ opposites.with_some n.now c.now op) }
{
    match op {
        None => Ok(None),
        Some(op) => {
            let m = with_opposite(alloc, n, c, op)?;
            Ok(Some(m))
        }
    }
}

// The same of a node c that fires wherever the node does.
fn opposed_by(alloc: Global, n: &FlowNode, c: &FlowNode) -> Result<Option<FlowNode>, Memory>
    ensures { IfOk result (λ o. o ≡ opposites.opposed_by n.now c.now) }
{
    if covers(c.guard, n.guard) && hands_on(c) {
        with_some(alloc, n, c, opposite_of(c.op))
    } else {
        Ok(None)
    }
}

// The same of node k, where there is one.
fn opposed_at(
    alloc: Global,
    nodes: &[FlowNode],
    n: &FlowNode,
    k: usize,
) -> Result<Option<FlowNode>, Memory>
    ensures { IfOk result (λ o. o ≡ opposites.opposed_at n.now (slice_get nodes.now k)) }
{
    match nodes.get(k) {
        None => Ok(None),
        Some(c) => opposed_by(alloc, n, c),
    }
}

// The same of what some sources are alone, which is another node than node j.
fn opposed_in(
    alloc: Global,
    nodes: &[FlowNode],
    j: usize,
    n: &FlowNode,
    sources: &[FlowSource],
) -> Result<Option<FlowNode>, Memory>
    ensures { IfOk result (λ o. o ≡ opposites.opposed_in nodes.now j n.now sources.now) }
{
    match sources {
        [FlowSource::Node(k)] => {
            if *k as usize == j {
                Ok(None)
            } else {
                opposed_at(alloc, nodes, n, *k as usize)
            }
        }
        _ => Ok(None),
    }
}

/// Node j, which tells whether a test does not hold, as the opposite test.
pub fn opposed(
    alloc: Global,
    nodes: &[FlowNode],
    j: usize,
    n: &FlowNode,
) -> Result<Option<FlowNode>, Memory>
    ensures { IfOk result (λ o. o ≡ opposites.opposed nodes.now j n.now) }
{
    if is_teqi(n.op) && (is_zero(n.imm) && is_empty(n.right.as_slice())) {
        opposed_in(alloc, nodes, j, n, n.left.as_slice())
    } else {
        Ok(None)
    }
}

// Whether a node tells whether its operand is 0, for a choice of which nothing is claimed.
fn tells_zero(nodes: &[FlowNode], n: &FlowNode) -> bool {
    match n.op {
        Op::Teqi => is_zero(n.imm),
        Op::Teq => match small_of(nodes, n.right.as_slice()) {
            None => false,
            Some(imm) => is_zero(imm),
        },
        _ => false,
    }
}

// Whether a source is a test that fires wherever a node does, and goes or has one operand, for a choice of which
// nothing is claimed.
fn tests_for(nodes: &[FlowNode], n: &FlowNode, source: FlowSource, uses: &Uses) -> bool {
    match source {
        FlowSource::Read(_) => false,
        FlowSource::Node(k) => match nodes.get(k as usize) {
            None => false,
            Some(c) => {
                covers(c.guard, n.guard)
                    && opposite_of(c.op).is_some()
                    && !(is_general(form_of(c.op)) && feeds_several(uses, k as usize))
            }
        },
    }
}

/// Whether the opposite of a test may stand for a node without a `mov` more, for a choice of which nothing is
/// claimed.
pub fn may_oppose(nodes: &[FlowNode], n: &FlowNode, uses: &Uses) -> bool {
    match n.left.as_slice() {
        [source] => tells_zero(nodes, n) && tests_for(nodes, n, *source, uses),
        _ => false,
    }
}
