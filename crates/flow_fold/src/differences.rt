//! What a node gives more than another.

ghost use Rattle.std.specs.Prelude.{◌≡◌, ◌∷◌, [], ◌*ℤ◌, true, MatchOption};
ghost use Rattle.trips_isa.specs.declared.op.Op.TheVariants.{Add, Slli};
ghost use Rattle.ir_forms.specs.declared.flow.FlowSource.TheVariants.{Node};
ghost use Rattle.flow_fold.specs.inside.Offsets as offsets;
ghost use Rattle.flow_fold.specs.inside.Strides as strides;

use crate::constants::is_small;
use crate::offsets::if_small;
use crate::sharing::{same_op, same_sources};
use crate::sums::adds;
use ir_forms::{FlowNode, FlowSource};
use trips_isa::Op;

// What a shift multiplies by.
fn shifts(op: Op, imm: i32) -> Option<i32>
    requires { op ≡ Slli }
    ensures { MatchOption result Unit (λ w. strides.Times op imm w) }
{
    if imm == 1 {
        Some(2)
    } else if imm == 2 {
        Some(4)
    } else if imm == 3 {
        Some(8)
    } else {
        None
    }
}

// The number by which an operation with an immediate multiplies.
fn times(op: Op, imm: i32) -> Option<i32>
    ensures { MatchOption result Unit (λ w. strides.Times op imm w) }
{
    match op {
        Op::Slli => shifts(op, imm),
        Op::Muli => {
            if !is_small(imm) {
                return None;
            }
            if 0 <= imm { Some(imm) } else { None }
        }
        _ => None,
    }
}

// The product of two numbers, where all three are small.
fn small_product(d: i32, w: i32) -> Option<i32>
    ensures { result ≡ offsets.if_small d w (d *ℤ w) }
{
    if_small(d, w, d as i64 * w as i64)
}

// Whether an operand takes node k and nothing else.
fn takes_alone(sources: &[FlowSource], k: u32) -> bool
    ensures { result ≡ true → sources.now ≡ Node k ∷ [] }
{
    match sources {
        [FlowSource::Node(i)] => *i == k,
        _ => false,
    }
}

/// Whether an operation adds two words.
pub fn is_sum(op: Op) -> bool
    ensures { result ≡ true → op ≡ Add }
{
    match op {
        Op::Add => true,
        _ => false,
    }
}

// What a multiple is more where a node adds a small number to what is multiplied.
fn multiple_of(nodes: &[FlowNode], c: &FlowNode, n: &FlowNode) -> Option<i32>
    ensures { MatchOption result Unit (λ b. strides.Multiple nodes.now c.now n.now b) }
{
    match times(n.op, n.imm) {
        None => None,
        Some(w) => match adds(nodes, c) {
            None => None,
            Some(d) => match small_product(d, w) {
                None => None,
                Some(b) => Some(b),
            },
        },
    }
}

// What a multiple by an immediate is ahead of another.
fn scaled_ahead(nodes: &[FlowNode], k: u32, c: &FlowNode, a: &FlowNode, n: &FlowNode) -> Option<i32>
    ensures { MatchOption result Unit (λ b. strides.Ahead nodes.now k c.now a.now n.now b) }
{
    if !takes_alone(n.left.as_slice(), k) {
        return None;
    }
    if !same_sources(a.left.as_slice(), c.left.as_slice()) {
        return None;
    }
    if !same_sources(a.right.as_slice(), n.right.as_slice()) {
        return None;
    }
    if !same_op(a.op, n.op) {
        return None;
    }
    if a.imm != n.imm {
        return None;
    }
    match multiple_of(nodes, c, n) {
        None => None,
        Some(b) => Some(b),
    }
}

// What a sum is ahead of another, by its left operand.
fn left_ahead(nodes: &[FlowNode], k: u32, c: &FlowNode, a: &FlowNode, n: &FlowNode) -> Option<i32>
    ensures { MatchOption result Unit (λ b. strides.Ahead nodes.now k c.now a.now n.now b) }
{
    if !takes_alone(n.left.as_slice(), k) {
        return None;
    }
    if !same_sources(a.left.as_slice(), c.left.as_slice()) {
        return None;
    }
    if !same_sources(a.right.as_slice(), n.right.as_slice()) {
        return None;
    }
    if !is_sum(a.op) {
        return None;
    }
    if !is_sum(n.op) {
        return None;
    }
    match adds(nodes, c) {
        None => None,
        Some(b) => Some(b),
    }
}

// What a sum is ahead of another, by its right operand.
fn right_ahead(nodes: &[FlowNode], k: u32, c: &FlowNode, a: &FlowNode, n: &FlowNode) -> Option<i32>
    ensures { MatchOption result Unit (λ b. strides.Ahead nodes.now k c.now a.now n.now b) }
{
    if !takes_alone(n.right.as_slice(), k) {
        return None;
    }
    if !same_sources(a.right.as_slice(), c.left.as_slice()) {
        return None;
    }
    if !same_sources(a.left.as_slice(), n.left.as_slice()) {
        return None;
    }
    if !is_sum(a.op) {
        return None;
    }
    if !is_sum(n.op) {
        return None;
    }
    match adds(nodes, c) {
        None => None,
        Some(b) => Some(b),
    }
}

/// What node n is ahead of node a, where node k, which is c, stands at an operand of n.
pub fn ahead(nodes: &[FlowNode], k: u32, c: &FlowNode, a: &FlowNode, n: &FlowNode) -> Option<i32>
    ensures { MatchOption result Unit (λ b. strides.Ahead nodes.now k c.now a.now n.now b) }
{
    match scaled_ahead(nodes, k, c, a, n) {
        Some(b) => Some(b),
        None => match left_ahead(nodes, k, c, a, n) {
            Some(b) => Some(b),
            None => right_ahead(nodes, k, c, a, n),
        },
    }
}
