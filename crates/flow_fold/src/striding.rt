//! The pass *stride*.

ghost use Rattle.std.specs.Prelude.{◌≡◌, IfOk};
ghost use Rattle.flow_fold.specs.inside.Replaces.{Replaces};
ghost use Rattle.flow_fold.specs.inside.Strides as strides;

use crate::addresses::feeds_addresses;
use crate::constants::{immediate_of, small_of};
use crate::copies::covers;
use crate::differences::{ahead, is_sum};
use crate::folding::{Rule, tried_at, turned_at, with_node};
use crate::sharing::{
    get_the_same, same_sources, uncopied_at, with_left_constant, with_right_constant,
};
use crate::sums::{adds, may_add};
use crate::trying::{has_address, may_stride};
use crate::uses::{Uses, feeds_several, uses_of};
use base::{Items, Memory};
use ir_forms::{FlowBlock, FlowNode, FlowSource};
use std::alloc::Global;
use trips_isa::Op;

// From so many nodes on they have no number.
const MOST_NODES: usize = 1 << 32;

// A node that adds a number to what node i gives, wherever node n fires.
fn sum_on(alloc: Global, i: u32, n: &FlowNode, imm: i32) -> Result<FlowNode, Memory>
    ensures { IfOk result (λ m. m ≡ strides.sum_on i n.now imm) }
{
    let left = Items::from_slice(alloc, &[FlowSource::Node(i)])?;
    Ok(FlowNode {
        op: Op::Addi,
        imm,
        number: 0,
        guard: n.guard,
        left,
        right: Items::new(alloc),
    })
}

// A block whose node j gives what node i gives and what it is ahead, by node k, where it is.
fn strided_at(
    alloc: Global,
    block: FlowBlock,
    i: u32,
    k: u32,
    j: usize,
) -> Result<FlowBlock, Memory>
    ensures { IfOk result (λ g. Replaces block g) }
{
    if i as usize == j {
        return Ok(block);
    }
    if k as usize == j {
        return Ok(block);
    }
    let nodes = block.nodes.as_slice();
    match nodes.get(i as usize) {
        None => Ok(block),
        Some(a) => match nodes.get(k as usize) {
            None => Ok(block),
            Some(c) => match nodes.get(j) {
                None => Ok(block),
                Some(n) => {
                    if !covers(a.guard, n.guard) {
                        return Ok(block);
                    }
                    if !covers(c.guard, n.guard) {
                        return Ok(block);
                    }
                    match ahead(nodes, k, c, a, n) {
                        None => Ok(block),
                        Some(b) => {
                            let m = sum_on(alloc, i, n, b)?;
                            Ok(with_node(block, j, m))
                        }
                    }
                }
            },
        },
    }
}

// WHERE IT IS TRIED: a choice of which nothing is claimed.

// What an operation multiplies by, with its constant as its immediate.
fn scale_of(nodes: &[FlowNode], n: &FlowNode) -> Option<(Op, i32)> {
    match n.op {
        Op::Slli | Op::Muli => Some((n.op, n.imm)),
        Op::Sll | Op::Mul => {
            let op = immediate_of(n.op)?;
            let imm = small_of(nodes, n.right.as_slice())?;
            Some((op, imm))
        }
        _ => None,
    }
}

// Whether two nodes multiply by one number.
fn scale_alike(nodes: &[FlowNode], a: &FlowNode, n: &FlowNode) -> bool {
    match (scale_of(nodes, a), scale_of(nodes, n)) {
        (Some((o, i)), Some((p, k))) => o == p && i == k,
        _ => false,
    }
}

// The one node that an operand takes.
fn only_node(sources: &[FlowSource]) -> Option<u32> {
    match sources {
        [FlowSource::Node(k)] => Some(*k),
        _ => None,
    }
}

// The node that stands at an operand of node n and adds a small number to one source.
fn step_at(nodes: &[FlowNode], j: u32, n: &FlowNode, sources: &[FlowSource]) -> Option<u32> {
    let k = only_node(sources)?;
    let c = nodes.get(k as usize)?;
    if k != j && covers(c.guard, n.guard) && c.left.len() == 1 && adds(nodes, c).is_some() {
        Some(k)
    } else {
        None
    }
}

// Whether node a takes at its left what node k adds to, and is otherwise as node n.
fn is_left_base(uses: &Uses, block: &FlowBlock, k: u32, a: &FlowNode, n: &FlowNode) -> bool {
    let nodes = block.nodes.as_slice();
    match nodes.get(k as usize) {
        None => false,
        Some(c) => {
            covers(a.guard, n.guard)
                && same_sources(a.left.as_slice(), c.left.as_slice())
                && (scale_alike(nodes, a, n)
                    || (is_sum(a.op)
                        && is_sum(n.op)
                        && get_the_same(uses, block, a.right.as_slice(), n.right.as_slice())))
        }
    }
}

// Whether node a takes at its right what node k adds to, and is otherwise as node n.
fn is_right_base(uses: &Uses, block: &FlowBlock, k: u32, a: &FlowNode, n: &FlowNode) -> bool {
    match block.nodes.get(k as usize) {
        None => false,
        Some(c) => {
            covers(a.guard, n.guard)
                && same_sources(a.right.as_slice(), c.left.as_slice())
                && is_sum(a.op)
                && is_sum(n.op)
                && get_the_same(uses, block, a.left.as_slice(), n.left.as_slice())
        }
    }
}

// A node that node j is ahead of by node k, at its left or at its right.
fn base_of(
    uses: &Uses,
    block: &FlowBlock,
    j: u32,
    n: &FlowNode,
    k: u32,
    left: bool,
) -> Option<u32> {
    let mut i = 0u32;
    for a in block.nodes.as_slice() {
        if i != j && i != k {
            let is = if left {
                is_left_base(uses, block, k, a, n)
            } else {
                is_right_base(uses, block, k, a, n)
            };
            if is {
                return Some(i);
            }
        }
        i = i.saturating_add(1);
    }
    None
}

// The nodes i and k by which node j is ahead.
fn bases(uses: &Uses, block: &FlowBlock, j: u32, n: &FlowNode) -> Option<(u32, u32)> {
    let nodes = block.nodes.as_slice();
    if let Some(k) = step_at(nodes, j, n, n.left.as_slice()) {
        if let Some(i) = base_of(uses, block, j, n, k, true) {
            return Some((i, k));
        }
    }
    let k = step_at(nodes, j, n, n.right.as_slice())?;
    let i = base_of(uses, block, j, n, k, false)?;
    Some((i, k))
}

// The same, where node j multiplies or is a sum that then needs no `mov` more.
fn found_at(uses: &Uses, block: &FlowBlock, j: u32) -> Option<(u32, u32)> {
    let nodes = block.nodes.as_slice();
    let n = nodes.get(j as usize)?;
    let scales = scale_of(nodes, n).is_some();
    let sums = is_sum(n.op)
        && (!feeds_several(uses, j as usize) || feeds_addresses(block, j as usize));
    if scales || sums {
        bases(uses, block, j, n)
    } else {
        None
    }
}

// Whether node j multiplies by a constant at its right.
fn scales_at_right(block: &FlowBlock, j: usize) -> bool {
    match block.nodes.get(j) {
        None => false,
        Some(n) => match n.op {
            Op::Sll | Op::Mul => true,
            _ => false,
        },
    }
}

// A block whose node j multiplies by its immediate.
fn scaled_at(alloc: Global, block: FlowBlock, j: usize) -> Result<FlowBlock, Memory>
    ensures { IfOk result (λ g. Replaces block g) }
{
    if scales_at_right(&block, j) {
        turned_at(alloc, block, j, Rule::Constant)
    } else {
        Ok(block)
    }
}

// A block whose node j gives what node i gives and what it is ahead, also where their constants stand twice.
fn joined_at(
    alloc: Global,
    block: FlowBlock,
    i: u32,
    k: u32,
    j: u32,
    uses: &Uses,
) -> Result<FlowBlock, Memory>
    ensures { IfOk result (λ g. Replaces block g) }
{
    let left = with_left_constant(alloc, block, i, j, uses)?;
    let right = with_right_constant(alloc, left, i, j, uses)?;
    let direct = uncopied_at(alloc, right, j as usize)?;
    let base = scaled_at(alloc, direct, i as usize)?;
    let node = scaled_at(alloc, base, j as usize)?;
    let last = strided_at(alloc, node, i, k, j as usize)?;
    Ok(last)
}

// A block whose node j is ahead of another, where it is of one.
fn led_at(alloc: Global, block: FlowBlock, j: u32, uses: &Uses) -> Result<FlowBlock, Memory>
    ensures { IfOk result (λ g. Replaces block g) }
{
    match found_at(uses, &block, j) {
        None => Ok(block),
        Some((i, k)) => joined_at(alloc, block, i, k, j, uses),
    }
}

// Whether node j adds to a sum.
fn may_add_at(block: &FlowBlock, j: usize) -> bool {
    let nodes = block.nodes.as_slice();
    match nodes.get(j) {
        None => false,
        Some(n) => may_add(nodes, n),
    }
}

// A block whose node j adds at once what it adds to a sum.
fn summed_at(alloc: Global, block: FlowBlock, j: usize) -> Result<FlowBlock, Memory>
    ensures { IfOk result (λ g. Replaces block g) }
{
    if may_add_at(&block, j) {
        turned_at(alloc, block, j, Rule::Sum)
    } else {
        Ok(block)
    }
}

// A block whose node j adds at once, is ahead of another, and has in its offset what its address adds.
fn stridden_at(alloc: Global, block: FlowBlock, j: u32, uses: &Uses) -> Result<FlowBlock, Memory>
    ensures { IfOk result (λ g. Replaces block g) }
{
    if !may_stride(&block, j as usize) {
        return Ok(block);
    }
    let summed = summed_at(alloc, block, j as usize)?;
    let led = led_at(alloc, summed, j, uses)?;
    let moves = has_address(&led, j as usize);
    let last = tried_at(alloc, led, j as usize, Rule::Offset, moves)?;
    Ok(last)
}

/// The block whose nodes that give what another gives and a small number more add it to what the other gives; the
/// nodes keep their numbers.
#[tactic(auto, using(crate::proofs::Following::stands_on, crate::proofs::Following::stands_for_itself))]
pub fn stride(alloc: Global, block: FlowBlock) -> Result<FlowBlock, Memory>
    ensures { IfOk result (λ g. Replaces block g) }
{
    let many = block.nodes.len();
    if many >= MOST_NODES {
        return Ok(block);
    }
    let count = many as u32;
    let uses = uses_of(alloc, &block)?;
    let mut now = block;
    for j in 0..count {
        now = stridden_at(alloc, now, j, &uses)?;
    }
    Ok(now)
}
