//! The rules of the pass *fold*, each of which turns one node.

ghost use Rattle.std.specs.Prelude.{◌≡◌, ◌<◌, length, IfOk, MatchOption};
ghost use Rattle.flow_fold.specs.inside.Folds as folds;
ghost use Rattle.flow_fold.specs.inside.Replaces.{Replaces};

use crate::computed::computed;
use crate::constants::{immediate_of, small_of};
use crate::copies::{copied, guard_copied};
use crate::mirrors::{may_mirror, mirror_of, mirrored};
use crate::negatives::{as_negative, is_negative};
use crate::offsets::offset_of;
use crate::opposites::opposed;
use crate::sums::added;
use crate::tests::{as_copy, tells_bit};
use crate::waits::{may_free, without_guard};
use base::{Items, Memory};
use ir_forms::{FlowBlock, FlowNode, FlowSource, Guard};
use std::alloc::Global;
use trips_isa::Op;

// A node whose right operand is the immediate of its new operation.
fn with_constant(alloc: Global, n: &FlowNode, op: Op, imm: i32) -> Result<FlowNode, Memory>
    ensures { IfOk result (λ m. m ≡ folds.with_constant n.now op imm) }
{
    let left = Items::from_slice(alloc, n.left.as_slice())?;
    Ok(FlowNode {
        op,
        imm,
        number: n.number,
        guard: n.guard,
        left,
        right: Items::new(alloc),
    })
}

/// A node with another left operand.
pub fn with_left(
    alloc: Global,
    n: &FlowNode,
    sources: Items<FlowSource>,
) -> Result<FlowNode, Memory>
    ensures { IfOk result (λ m. m ≡ folds.with_left n.now sources) }
{
    let right = Items::from_slice(alloc, n.right.as_slice())?;
    Ok(FlowNode {
        op: n.op,
        imm: n.imm,
        number: n.number,
        guard: n.guard,
        left: sources,
        right,
    })
}

/// A node with another right operand.
pub fn with_right(
    alloc: Global,
    n: &FlowNode,
    sources: Items<FlowSource>,
) -> Result<FlowNode, Memory>
    ensures { IfOk result (λ m. m ≡ folds.with_right n.now sources) }
{
    let left = Items::from_slice(alloc, n.left.as_slice())?;
    Ok(FlowNode {
        op: n.op,
        imm: n.imm,
        number: n.number,
        guard: n.guard,
        left,
        right: sources,
    })
}

// A node with another guard.
fn with_guard(alloc: Global, n: &FlowNode, g: Guard) -> Result<FlowNode, Memory>
    ensures { IfOk result (λ m. m ≡ folds.with_guard n.now g) }
{
    let left = Items::from_slice(alloc, n.left.as_slice())?;
    let right = Items::from_slice(alloc, n.right.as_slice())?;
    Ok(FlowNode {
        op: n.op,
        imm: n.imm,
        number: n.number,
        guard: Some(g),
        left,
        right,
    })
}

// What node j becomes where a small constant stands at its right.
fn constant_turn(
    alloc: Global,
    nodes: &[FlowNode],
    j: usize,
    n: &FlowNode,
) -> Result<Option<FlowNode>, Memory>
    ensures { IfOk result (λ o. MatchOption o Unit (λ m. folds.Turns nodes.now j n.now m)) }
{
    match immediate_of(n.op) {
        None => Ok(None),
        Some(op) => match small_of(nodes, n.right.as_slice()) {
            None => Ok(None),
            Some(imm) => {
                let m = with_constant(alloc, n, op, imm)?;
                Ok(Some(m))
            }
        },
    }
}

// What node j becomes where a small constant stands at its left alone.
fn mirror_turn(
    alloc: Global,
    nodes: &[FlowNode],
    j: usize,
    n: &FlowNode,
) -> Result<Option<FlowNode>, Memory>
    ensures { IfOk result (λ o. MatchOption o Unit (λ m. folds.Turns nodes.now j n.now m)) }
{
    if !may_mirror(nodes, n) {
        return Ok(None);
    }
    match mirror_of(n.op) {
        None => Ok(None),
        Some(op) => {
            let m = mirrored(alloc, n, op)?;
            Ok(Some(m))
        }
    }
}

// What node j becomes where a copy stands at its left.
fn left_turn(
    alloc: Global,
    nodes: &[FlowNode],
    j: usize,
    n: &FlowNode,
) -> Result<Option<FlowNode>, Memory>
    ensures { IfOk result (λ o. MatchOption o Unit (λ m. folds.Turns nodes.now j n.now m)) }
{
    match copied(alloc, nodes, j, n.guard, n.left.as_slice())? {
        None => Ok(None),
        Some(sources) => {
            let m = with_left(alloc, n, sources)?;
            Ok(Some(m))
        }
    }
}

// What node j becomes where a copy stands at its right.
fn right_turn(
    alloc: Global,
    nodes: &[FlowNode],
    j: usize,
    n: &FlowNode,
) -> Result<Option<FlowNode>, Memory>
    ensures { IfOk result (λ o. MatchOption o Unit (λ m. folds.Turns nodes.now j n.now m)) }
{
    match copied(alloc, nodes, j, n.guard, n.right.as_slice())? {
        None => Ok(None),
        Some(sources) => {
            let m = with_right(alloc, n, sources)?;
            Ok(Some(m))
        }
    }
}

// What node j becomes where a copy guards it.
fn guard_turn(
    alloc: Global,
    nodes: &[FlowNode],
    j: usize,
    n: &FlowNode,
) -> Result<Option<FlowNode>, Memory>
    ensures { IfOk result (λ o. MatchOption o Unit (λ m. folds.Turns nodes.now j n.now m)) }
{
    match guard_copied(nodes, j, n.guard) {
        None => Ok(None),
        Some(g) => {
            let m = with_guard(alloc, n, g)?;
            Ok(Some(m))
        }
    }
}

// What node j becomes where its address is a sum.
fn offset_turn(
    alloc: Global,
    nodes: &[FlowNode],
    j: usize,
    n: &FlowNode,
) -> Result<Option<FlowNode>, Memory>
    ensures { IfOk result (λ o. MatchOption o Unit (λ m. folds.Turns nodes.now j n.now m)) }
{
    match offset_of(alloc, nodes, j, n)? {
        None => Ok(None),
        Some(m) => Ok(Some(m)),
    }
}

// What node j becomes where it adds to a sum.
fn sum_turn(
    alloc: Global,
    nodes: &[FlowNode],
    j: usize,
    n: &FlowNode,
) -> Result<Option<FlowNode>, Memory>
    ensures { IfOk result (λ o. MatchOption o Unit (λ m. folds.Turns nodes.now j n.now m)) }
{
    match added(alloc, nodes, j, n, n.left.as_slice())? {
        None => Ok(None),
        Some(m) => Ok(Some(m)),
    }
}

// What node j becomes where it tells a bit that it could copy.
fn told_turn(
    alloc: Global,
    nodes: &[FlowNode],
    j: usize,
    n: &FlowNode,
) -> Result<Option<FlowNode>, Memory>
    ensures { IfOk result (λ o. MatchOption o Unit (λ m. folds.Turns nodes.now j n.now m)) }
{
    if tells_bit(nodes, j, n) {
        let m = as_copy(alloc, n)?;
        Ok(Some(m))
    } else {
        Ok(None)
    }
}

// What node j becomes where it tells whether a test does not hold.
fn opposite_turn(
    alloc: Global,
    nodes: &[FlowNode],
    j: usize,
    n: &FlowNode,
) -> Result<Option<FlowNode>, Memory>
    ensures { IfOk result (λ o. MatchOption o Unit (λ m. folds.Turns nodes.now j n.now m)) }
{
    match opposed(alloc, nodes, j, n)? {
        None => Ok(None),
        Some(m) => Ok(Some(m)),
    }
}

// What node j becomes where it computes of constants alone.
fn computed_turn(
    alloc: Global,
    nodes: &[FlowNode],
    j: usize,
    n: &FlowNode,
) -> Result<Option<FlowNode>, Memory>
    ensures { IfOk result (λ o. MatchOption o Unit (λ m. folds.Turns nodes.now j n.now m)) }
{
    match computed(alloc, nodes, n)? {
        None => Ok(None),
        Some(m) => Ok(Some(m)),
    }
}

// What node j becomes where it ends a negative constant.
fn negative_turn(
    alloc: Global,
    nodes: &[FlowNode],
    j: usize,
    n: &FlowNode,
) -> Result<Option<FlowNode>, Memory>
    ensures { IfOk result (λ o. MatchOption o Unit (λ m. folds.Turns nodes.now j n.now m)) }
{
    if is_negative(nodes, j, n) {
        let m = as_negative(alloc, n)?;
        Ok(Some(m))
    } else {
        Ok(None)
    }
}

// What node j becomes where it needs no guard.
fn freed_turn(
    alloc: Global,
    nodes: &[FlowNode],
    j: usize,
    n: &FlowNode,
) -> Result<Option<FlowNode>, Memory>
    ensures { IfOk result (λ o. MatchOption o Unit (λ m. folds.Turns nodes.now j n.now m)) }
{
    if may_free(nodes, j, n) {
        let m = without_guard(alloc, n)?;
        Ok(Some(m))
    } else {
        Ok(None)
    }
}

/// The rules, each of which looks at one operand.
#[derive(Clone, Copy)]
pub enum Rule {
    Left,
    Right,
    Guard,
    Mirror,
    Constant,
    Offset,
    Sum,
    Told,
    Opposite,
    Computed,
    Negative,
    Freed,
}

// What node j becomes by a rule, where it applies.
fn turned(
    alloc: Global,
    nodes: &[FlowNode],
    j: usize,
    n: &FlowNode,
    rule: Rule,
) -> Result<Option<FlowNode>, Memory>
    ensures { IfOk result (λ o. MatchOption o Unit (λ m. folds.Turns nodes.now j n.now m)) }
{
    match rule {
        Rule::Left => left_turn(alloc, nodes, j, n),
        Rule::Right => right_turn(alloc, nodes, j, n),
        Rule::Guard => guard_turn(alloc, nodes, j, n),
        Rule::Mirror => mirror_turn(alloc, nodes, j, n),
        Rule::Constant => constant_turn(alloc, nodes, j, n),
        Rule::Offset => offset_turn(alloc, nodes, j, n),
        Rule::Sum => sum_turn(alloc, nodes, j, n),
        Rule::Told => told_turn(alloc, nodes, j, n),
        Rule::Opposite => opposite_turn(alloc, nodes, j, n),
        Rule::Computed => computed_turn(alloc, nodes, j, n),
        Rule::Negative => negative_turn(alloc, nodes, j, n),
        Rule::Freed => freed_turn(alloc, nodes, j, n),
    }
}

/// A block with another node at a place.
pub fn with_node(block: FlowBlock, j: usize, m: FlowNode) -> FlowBlock
    requires { j < length block.nodes }
    ensures { result ≡ folds.with_node block j m }
{
    let FlowBlock {
        mut nodes,
        reads,
        writes,
        mask,
    } = block;
    nodes.set(j, m);
    FlowBlock {
        nodes,
        reads,
        writes,
        mask,
    }
}

/// A block whose node j is turned by a rule, where there is one and the rule applies.
pub fn turned_at(alloc: Global, block: FlowBlock, j: usize, rule: Rule) -> Result<FlowBlock, Memory>
    ensures { IfOk result (λ g. Replaces block g) }
{
    let nodes = block.nodes.as_slice();
    match nodes.get(j) {
        None => Ok(block),
        Some(n) => {
            let found = turned(alloc, nodes, j, n, rule)?;
            match found {
                None => Ok(block),
                Some(m) => Ok(with_node(block, j, m)),
            }
        }
    }
}

/// The same where the rule is tried.
pub fn tried_at(
    alloc: Global,
    block: FlowBlock,
    j: usize,
    rule: Rule,
    is_tried: bool,
) -> Result<FlowBlock, Memory>
    ensures { IfOk result (λ g. Replaces block g) }
{
    if is_tried {
        turned_at(alloc, block, j, rule)
    } else {
        Ok(block)
    }
}
