//! The pass *share*.

ghost use Rattle.std.specs.Prelude.{◌≡◌, true, IfOk};
ghost use Rattle.flow_fold.specs.inside.Replaces.{Replaces};
ghost use Rattle.flow_fold.specs.inside.Shares as shares;

use crate::checking::is_division;
use crate::copies::covers;
use crate::folding::{Rule, turned_at, with_node};
use crate::trying::takes_copy;
use crate::uses::{Uses, feeds_several, uses_of};
use base::{Items, Memory};
use ir_forms::{FlowBlock, FlowNode, FlowSource, Guard};
use std::alloc::Global;
use trips_isa::{Form, Op, form_of};

// From so many nodes on they have no number.
const MOST_NODES: usize = 1 << 32;

/// Whether two operations are one.
pub fn same_op(a: Op, b: Op) -> bool
    ensures { result ≡ true → a ≡ b }
{
    a == b
}

// Whether two sources are one.
fn same_source(s: FlowSource, t: FlowSource) -> bool
    ensures { result ≡ true → s ≡ t }
{
    match (s, t) {
        (FlowSource::Read(a), FlowSource::Read(b)) => a == b,
        (FlowSource::Node(j), FlowSource::Node(k)) => j == k,
        _ => false,
    }
}

/// Whether two operands have the same sources.
pub fn same_sources(a: &[FlowSource], b: &[FlowSource]) -> bool
    ensures { result ≡ true → a.now ≡ b.now }
{
    match (a, b) {
        ([], []) => true,
        ([s, ss @ ..], [t, ts @ ..]) => same_source(*s, *t) && same_sources(ss, ts),
        _ => false,
    }
}

// Whether what a node of a form gives hangs on its operands' words alone.
fn may_be_shared(form: Form) -> bool
    ensures { result ≡ shares.may_be_shared form }
{
    match form {
        Form::General | Form::Immediate | Form::Constant => true,
        Form::Load | Form::Store | Form::Branch => false,
    }
}

// Whether node a does the same with the same sources as node n, and fires wherever n does.
fn are_twins(a: &FlowNode, n: &FlowNode) -> bool
    ensures { result ≡ true → shares.Twins a.now n.now }
{
    if !same_op(a.op, n.op) {
        return false;
    }
    if a.imm != n.imm {
        return false;
    }
    if !covers(a.guard, n.guard) {
        return false;
    }
    if !may_be_shared(form_of(n.op)) {
        return false;
    }
    if !same_sources(a.left.as_slice(), n.left.as_slice()) {
        return false;
    }
    same_sources(a.right.as_slice(), n.right.as_slice())
}

// A node that copies node i wherever node n fires.
fn copy_of(alloc: Global, i: u32, n: &FlowNode) -> Result<FlowNode, Memory>
    ensures { IfOk result (λ m. m ≡ shares.copy_of i n.now) }
{
    let left = Items::from_slice(alloc, &[FlowSource::Node(i)])?;
    Ok(FlowNode {
        op: Op::Mov,
        imm: 0,
        number: 0,
        guard: n.guard,
        left,
        right: Items::new(alloc),
    })
}

// A block whose node j is a copy of node i, where the two are twins.
fn copied_at(alloc: Global, block: FlowBlock, i: u32, j: usize) -> Result<FlowBlock, Memory>
    ensures { IfOk result (λ g. Replaces block g) }
{
    if i as usize == j {
        return Ok(block);
    }
    let nodes = block.nodes.as_slice();
    match nodes.get(i as usize) {
        None => Ok(block),
        Some(a) => match nodes.get(j) {
            None => Ok(block),
            Some(n) => {
                if are_twins(a, n) {
                    let m = copy_of(alloc, i, n)?;
                    Ok(with_node(block, j, m))
                } else {
                    Ok(block)
                }
            }
        },
    }
}

/// A block whose node j takes what the copies that it takes copy.
pub fn uncopied_at(alloc: Global, block: FlowBlock, j: usize) -> Result<FlowBlock, Memory>
    ensures { IfOk result (λ g. Replaces block g) }
{
    if !takes_copy(&block, j) {
        return Ok(block);
    }
    let left = turned_at(alloc, block, j, Rule::Left)?;
    let right = turned_at(alloc, left, j, Rule::Right)?;
    Ok(right)
}

// WHAT IS SHARED: a choice of which nothing is claimed.

// Whether a node gives a constant.
fn is_constant(n: &FlowNode) -> bool {
    match form_of(n.op) {
        Form::Constant => n.left.len() == 0,
        _ => false,
    }
}

// The nodes that two operands take, where each takes one and the first is not the second.
fn two_nodes(a: &[FlowSource], b: &[FlowSource]) -> Option<(u32, u32)> {
    match (a, b) {
        ([FlowSource::Node(i)], [FlowSource::Node(j)]) => {
            if *i != *j { Some((*i, *j)) } else { None }
        }
        _ => None,
    }
}

// Two nodes that give one constant, the second to one spot.
fn constants_of(
    uses: &Uses,
    block: &FlowBlock,
    a: &[FlowSource],
    b: &[FlowSource],
) -> Option<(u32, u32)> {
    let (i, j) = two_nodes(a, b)?;
    let first = block.nodes.get(i as usize)?;
    let second = block.nodes.get(j as usize)?;
    if is_constant(first) && are_twins(first, second) && !feeds_several(uses, j as usize) {
        Some((i, j))
    } else {
        None
    }
}

/// Whether two operands get the same words, where constants may stand twice.
pub fn get_the_same(uses: &Uses, block: &FlowBlock, a: &[FlowSource], b: &[FlowSource]) -> bool {
    same_sources(a, b) || constants_of(uses, block, a, b).is_some()
}

// Whether a node is a twin of another, where constants may stand twice.
fn are_alike(uses: &Uses, block: &FlowBlock, a: &FlowNode, n: &FlowNode) -> bool {
    same_op(a.op, n.op)
        && a.imm == n.imm
        && covers(a.guard, n.guard)
        && get_the_same(uses, block, a.left.as_slice(), n.left.as_slice())
        && get_the_same(uses, block, a.right.as_slice(), n.right.as_slice())
}

// The first node before node j that is alike.
fn alike_before(uses: &Uses, block: &FlowBlock, j: u32, n: &FlowNode) -> Option<u32> {
    for i in 0..j {
        if let Some(a) = block.nodes.get(i as usize) {
            if are_alike(uses, block, a, n) {
                return Some(i);
            }
        }
    }
    None
}

fn is_node(s: FlowSource, j: u32) -> bool {
    match s {
        FlowSource::Read(_) => false,
        FlowSource::Node(k) => k == j,
    }
}

fn takes(sources: &[FlowSource], j: u32) -> bool {
    for s in sources {
        if is_node(*s, j) {
            return true;
        }
    }
    false
}

fn is_guarded_by(guard: Option<Guard>, j: u32) -> bool {
    match guard {
        None => false,
        Some(g) => g.node == j,
    }
}

// Whether an operand of node k would take what node j, with this guard, copies, or does not take it at all.
fn looks_through(
    sources: &[FlowSource],
    k: u32,
    guard: Option<Guard>,
    j: u32,
    its: Option<Guard>,
) -> bool {
    !takes(sources, j) || (j < k && sources.len() == 1 && covers(its, guard))
}

// Whether nothing would take node j any more once it is a copy.
fn goes_as_copy(block: &FlowBlock, j: u32, its: Option<Guard>) -> bool {
    let mut k = 0u32;
    for n in block.nodes.as_slice() {
        if is_guarded_by(n.guard, j)
            || !looks_through(n.left.as_slice(), k, n.guard, j, its)
            || !looks_through(n.right.as_slice(), k, n.guard, j, its)
        {
            return false;
        }
        k = k.saturating_add(1);
    }
    for w in block.writes.as_slice() {
        if takes(w.sources.as_slice(), j) {
            return false;
        }
    }
    true
}

// The node that node j might copy: one before it, where then nothing takes node j any more, or a copy is less than a
// division.
fn twin_of(uses: &Uses, block: &FlowBlock, j: u32) -> Option<u32> {
    let n = block.nodes.get(j as usize)?;
    if n.left.len() == 0 || !may_be_shared(form_of(n.op)) {
        return None;
    }
    let i = alike_before(uses, block, j, n)?;
    if is_division(n.op) || goes_as_copy(block, j, n.guard) {
        Some(i)
    } else {
        None
    }
}

/// A block in which the constant that node j takes at the left is that which node i takes there.
pub fn with_left_constant(
    alloc: Global,
    block: FlowBlock,
    i: u32,
    j: u32,
    uses: &Uses,
) -> Result<FlowBlock, Memory>
    ensures { IfOk result (λ g. Replaces block g) }
{
    let found = match (block.nodes.get(i as usize), block.nodes.get(j as usize)) {
        (Some(a), Some(n)) => constants_of(uses, &block, a.left.as_slice(), n.left.as_slice()),
        _ => None,
    };
    match found {
        None => Ok(block),
        Some((a, b)) => copied_at(alloc, block, a, b as usize),
    }
}

/// The same at the right.
pub fn with_right_constant(
    alloc: Global,
    block: FlowBlock,
    i: u32,
    j: u32,
    uses: &Uses,
) -> Result<FlowBlock, Memory>
    ensures { IfOk result (λ g. Replaces block g) }
{
    let found = match (block.nodes.get(i as usize), block.nodes.get(j as usize)) {
        (Some(a), Some(n)) => constants_of(uses, &block, a.right.as_slice(), n.right.as_slice()),
        _ => None,
    };
    match found {
        None => Ok(block),
        Some((a, b)) => copied_at(alloc, block, a, b as usize),
    }
}

// A block whose node j copies node i, also where their constants stood twice.
fn joined_at(
    alloc: Global,
    block: FlowBlock,
    i: u32,
    j: u32,
    uses: &Uses,
) -> Result<FlowBlock, Memory>
    ensures { IfOk result (λ g. Replaces block g) }
{
    let left = with_left_constant(alloc, block, i, j, uses)?;
    let right = with_right_constant(alloc, left, i, j, uses)?;
    let direct = uncopied_at(alloc, right, j as usize)?;
    let last = copied_at(alloc, direct, i, j as usize)?;
    Ok(last)
}

// A block whose node j copies the node that does what it does, where there is one.
fn shared_at(alloc: Global, block: FlowBlock, j: u32, uses: &Uses) -> Result<FlowBlock, Memory>
    ensures { IfOk result (λ g. Replaces block g) }
{
    let direct = uncopied_at(alloc, block, j as usize)?;
    match twin_of(uses, &direct, j) {
        None => Ok(direct),
        Some(i) => joined_at(alloc, direct, i, j, uses),
    }
}

/// The block whose nodes that do what an earlier one does are copies, which nothing takes but what divided; the nodes
/// keep their numbers.
#[tactic(auto, using(crate::proofs::Following::stands_on, crate::proofs::Following::stands_for_itself))]
pub fn share(alloc: Global, block: FlowBlock) -> Result<FlowBlock, Memory>
    ensures { IfOk result (λ g. Replaces block g) }
{
    let many = block.nodes.len();
    if many >= MOST_NODES {
        return Ok(block);
    }
    let count = many as u32;
    let uses = uses_of(alloc, &block)?;
    let mut now = block;
    for j in 0..count {
        now = shared_at(alloc, now, j, &uses)?;
    }
    Ok(now)
}
