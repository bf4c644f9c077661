//! Sums with a constant that a load or a store takes into its offset.

ghost use Rattle.std.specs.Prelude.{◌≡◌, IfOk, slice_get};
ghost use Rattle.trips_isa.specs.Forms as forms;
ghost use Rattle.flow_fold.specs.inside.Offsets as offsets;

use crate::constants::is_small;
use crate::copies::covers;
use base::{Items, Memory};
use ir_forms::{FlowNode, FlowSource};
use std::alloc::Global;
use trips_isa::{Form, Op, form_of};

// Whether a form has an address at its left operand, and an offset.
fn has_address(form: Form) -> bool
    ensures { result ≡ offsets.has_address form }
{
    match form {
        Form::Load | Form::Store => true,
        _ => false,
    }
}

/// A number, where it and two others are small.
pub fn if_small(a: i32, b: i32, i: i64) -> Option<i32>
    ensures { result ≡ offsets.if_small a b i }
{
    if is_small(a) && is_small(b) && -256 <= i && i < 256 {
        Some(i as i32)
    } else {
        None
    }
}

// What the offset b becomes before an operation with immediate a.
fn moved(op: Op, a: i32, b: i32) -> Option<i32>
    ensures { result ≡ offsets.moved op a b }
{
    match op {
        Op::Addi => if_small(a, b, b as i64 + a as i64),
        Op::Subi => if_small(a, b, b as i64 - a as i64),
        _ => None,
    }
}

// What the offset of a node becomes before a node that fires wherever the node does.
fn offset_before(n: &FlowNode, c: &FlowNode) -> Option<i32>
    ensures { result ≡ offsets.offset_before n.now c.now }
{
    if covers(c.guard, n.guard) {
        moved(c.op, c.imm, n.imm)
    } else {
        None
    }
}

// A node with what another takes at its left and an offset.
fn with_offset(alloc: Global, n: &FlowNode, c: &FlowNode, imm: i32) -> Result<FlowNode, Memory>
    ensures { IfOk result (λ m. m ≡ offsets.with_offset n.now c.now.left imm) }
{
    let left = Items::from_slice(alloc, c.left.as_slice())?;
    let right = Items::from_slice(alloc, n.right.as_slice())?;
    Ok(FlowNode {
        op: n.op,
        imm,
        number: n.number,
        guard: n.guard,
        left,
        right,
    })
}

// The same, where there is an offset.
fn with_some(
    alloc: Global,
    n: &FlowNode,
    c: &FlowNode,
    offset: Option<i32>,
) -> Result<Option<FlowNode>, Memory>
    ensures { IfOk result (λ o. o ≡ offsets.with_some n.now c.now offset) }
{
    match offset {
        None => Ok(None),
        Some(imm) => {
            let m = with_offset(alloc, n, c, imm)?;
            Ok(Some(m))
        }
    }
}

// A node that adds to its offset what node k adds, where there is one.
fn summed_at(
    alloc: Global,
    nodes: &[FlowNode],
    n: &FlowNode,
    k: usize,
) -> Result<Option<FlowNode>, Memory>
    ensures { IfOk result (λ o. o ≡ offsets.summed_at n.now (slice_get nodes.now k)) }
{
    match nodes.get(k) {
        None => Ok(None),
        Some(c) => with_some(alloc, n, c, offset_before(n, c)),
    }
}

// Node j with the sum that its address is in its offset.
fn summed(
    alloc: Global,
    nodes: &[FlowNode],
    j: usize,
    n: &FlowNode,
    sources: &[FlowSource],
) -> Result<Option<FlowNode>, Memory>
    ensures { IfOk result (λ o. o ≡ offsets.summed nodes.now j n.now sources.now) }
{
    match sources {
        [FlowSource::Node(k)] => {
            if *k as usize == j {
                Ok(None)
            } else {
                summed_at(alloc, nodes, n, *k as usize)
            }
        }
        _ => Ok(None),
    }
}

/// Node j with the sum that its address is in its offset, where it has an address.
pub fn offset_of(
    alloc: Global,
    nodes: &[FlowNode],
    j: usize,
    n: &FlowNode,
) -> Result<Option<FlowNode>, Memory>
    ensures { IfOk result (λ o. o ≡ offsets.offset_of nodes.now j n.now (forms.form_of n.now.op)) }
{
    if has_address(form_of(n.op)) {
        summed(alloc, nodes, j, n, n.left.as_slice())
    } else {
        Ok(None)
    }
}
