//! The pass *fold*: which rules turn each node, and in what order.

ghost use Rattle.std.specs.Prelude.{IfOk};
ghost use Rattle.flow_fold.specs.inside.Replaces.{Replaces};

use crate::addresses::feeds_addresses;
use crate::computed::may_compute;
use crate::drawing::drawn;
use crate::folding::{Rule, tried_at, turned_at};
use crate::joining::{joined_at, joins};
use crate::opposites::may_oppose;
use crate::sums::may_add;
use crate::tests::may_tell;
use crate::trying::{does, has_address, is_guarded, may_fold};
use crate::uses::{Uses, feeds_several, uses_of};
use base::Memory;
use ir_forms::FlowBlock;
use std::alloc::Global;
use trips_isa::Op;

// Whether node j becomes one that needs no constant once it has an immediate, for a choice of which nothing is
// claimed.
fn may_turn_at(block: &FlowBlock, j: usize, uses: &Uses) -> bool {
    let nodes = block.nodes.as_slice();
    match nodes.get(j) {
        None => false,
        Some(n) => may_tell(nodes, j, n) || may_oppose(nodes, n, uses) || may_compute(nodes, n),
    }
}

// A block whose node j takes a small constant as its immediate, where it then needs no `mov` more: it feeds one
// spot, or loads and stores that take what it adds into their offsets.
fn constant_at(alloc: Global, block: FlowBlock, j: usize, uses: &Uses) -> Result<FlowBlock, Memory>
    ensures { IfOk result (λ g. Replaces block g) }
{
    if feeds_several(uses, j) && !feeds_addresses(&block, j) && !may_turn_at(&block, j, uses) {
        return Ok(block);
    }
    turned_at(alloc, block, j, Rule::Constant)
}

// Whether node j adds a constant to a sum, for a choice of which nothing is claimed.
fn may_add_at(block: &FlowBlock, j: usize) -> bool {
    let nodes = block.nodes.as_slice();
    match nodes.get(j) {
        None => false,
        Some(n) => may_add(nodes, n),
    }
}

// A block whose node j adds at once what it adds to a sum: its constant becomes its immediate first.
fn summed_at(alloc: Global, block: FlowBlock, j: usize) -> Result<FlowBlock, Memory>
    ensures { IfOk result (λ g. Replaces block g) }
{
    if !may_add_at(&block, j) {
        return Ok(block);
    }
    let constant = turned_at(alloc, block, j, Rule::Constant)?;
    let last = turned_at(alloc, constant, j, Rule::Sum)?;
    Ok(last)
}

// Whether node j may become an opposite test, for a choice of which nothing is claimed.
fn may_oppose_at(block: &FlowBlock, j: usize, uses: &Uses) -> bool {
    let nodes = block.nodes.as_slice();
    match nodes.get(j) {
        None => false,
        Some(n) => may_oppose(nodes, n, uses),
    }
}

// A block whose node j becomes an opposite test, where it then needs no `mov` more.
fn opposite_at(alloc: Global, block: FlowBlock, j: usize, uses: &Uses) -> Result<FlowBlock, Memory>
    ensures { IfOk result (λ g. Replaces block g) }
{
    if !may_oppose_at(&block, j, uses) {
        return Ok(block);
    }
    turned_at(alloc, block, j, Rule::Opposite)
}

// A block whose node j has no guard where it needs none.
fn freed_at(alloc: Global, block: FlowBlock, j: usize) -> Result<FlowBlock, Memory>
    ensures { IfOk result (λ g. Replaces block g) }
{
    if !is_guarded(&block, j) {
        return Ok(block);
    }
    turned_at(alloc, block, j, Rule::Freed)
}

// A block whose node j is folded: what it takes first looks through copies, then for a constant, which
// at the left moves to the right, then for a sum.
fn folded_at(
    alloc: Global,
    block: FlowBlock,
    j: usize,
    uses: &Uses,
    marks: &[bool],
) -> Result<FlowBlock, Memory>
    ensures { IfOk result (λ g. Replaces block g) }
{
    if !may_fold(&block, j) {
        return freed_at(alloc, block, j);
    }
    let has_guard = is_guarded(&block, j);
    let guarded = tried_at(alloc, block, j, Rule::Guard, has_guard)?;
    let left = turned_at(alloc, guarded, j, Rule::Left)?;
    let right = turned_at(alloc, left, j, Rule::Right)?;
    let joined = joined_at(alloc, right, j, marks)?;
    let mirrored = turned_at(alloc, joined, j, Rule::Mirror)?;
    let summed = summed_at(alloc, mirrored, j)?;
    let constant = constant_at(alloc, summed, j, uses)?;
    let moves = has_address(&constant, j);
    let offset = tried_at(alloc, constant, j, Rule::Offset, moves)?;
    let tells = does(&offset, j, Op::Tnei);
    let told = tried_at(alloc, offset, j, Rule::Told, tells)?;
    let opposite = opposite_at(alloc, told, j, uses)?;
    let known = turned_at(alloc, opposite, j, Rule::Computed)?;
    let ends = does(&known, j, Op::App);
    let negative = tried_at(alloc, known, j, Rule::Negative, ends)?;
    let last = freed_at(alloc, negative, j)?;
    Ok(last)
}

// A block each node of which is folded where a rule applies.
#[tactic(auto, using(crate::proofs::Following::stands_on, crate::proofs::Following::stands_for_itself))]
fn all_folded(
    alloc: Global,
    block: FlowBlock,
    uses: &Uses,
    marks: &[bool],
) -> Result<FlowBlock, Memory>
    ensures { IfOk result (λ g. Replaces block g) }
{
    let count = block.nodes.len();
    let mut now = block;
    for j in 0..count {
        now = folded_at(alloc, now, j, uses, marks)?;
    }
    Ok(now)
}

/// The block with each node folded where a rule applies, and with writes that take what copies copy; the nodes keep
/// their numbers.
pub fn fold(alloc: Global, block: FlowBlock) -> Result<FlowBlock, Memory>
    ensures { IfOk result (λ g. Replaces block g) }
{
    let uses = uses_of(alloc, &block)?;
    let marks = joins(alloc, &block, &uses)?;
    let folded = all_folded(alloc, block, &uses, marks.as_slice())?;
    let last = drawn(alloc, folded, marks.as_slice())?;
    Ok(last)
}
