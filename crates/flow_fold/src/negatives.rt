//! Negative constants that a single `gens` gives.

ghost use Rattle.std.specs.Prelude.{◌≡◌, true, IfOk, slice_get};
ghost use Rattle.flow_fold.specs.inside.Negatives as negatives;

use base::{Items, Memory};
use ir_forms::{FlowNode, FlowSource};
use std::alloc::Global;
use trips_isa::Op;

// Whether an operation begins a constant.
fn is_genu(op: Op) -> bool
    ensures { result ≡ negatives.is_genu op }
{
    match op {
        Op::Genu => true,
        _ => false,
    }
}

// Whether it puts 16 bits behind a word.
fn is_app(op: Op) -> bool
    ensures { result ≡ negatives.is_app op }
{
    match op {
        Op::App => true,
        _ => false,
    }
}

// Whether a number is 16 ones.
fn is_full(imm: i32) -> bool
    ensures { result ≡ negatives.is_full imm }
{
    65535 <= imm && imm < 65536
}

// Whether a number is 16 bits that begin with a one.
fn is_upper(imm: i32) -> bool
    ensures { result ≡ negatives.is_upper imm }
{
    32768 <= imm && imm < 65536
}

// Whether a node puts 16 ones, wherever the block goes.
fn puts_ones(n: &FlowNode) -> bool
    ensures { result ≡ negatives.puts_ones n.now }
{
    n.guard.is_none() && is_full(n.imm)
}

// Whether node k begins with 16 ones.
fn begins_at(nodes: &[FlowNode], k: usize) -> bool
    ensures { result ≡ negatives.begins_at (slice_get nodes.now k) }
{
    match nodes.get(k) {
        None => false,
        Some(n) => is_genu(n.op) && puts_ones(n),
    }
}

// Whether node k puts 16 ones behind 16.
fn goes_on_at(nodes: &[FlowNode], j: usize, k: usize) -> bool
    ensures { result ≡ negatives.goes_on_at (negatives.ones_16 nodes.now j) (slice_get nodes.now k) }
{
    match nodes.get(k) {
        None => false,
        Some(n) => is_app(n.op) && (puts_ones(n) && ones_16(nodes, j, n.left.as_slice())),
    }
}

// Whether node k puts 16 ones behind 32.
fn goes_further_at(nodes: &[FlowNode], j: usize, k: usize) -> bool
    ensures { result ≡ negatives.goes_on_at (negatives.ones_32 nodes.now j) (slice_get nodes.now k) }
{
    match nodes.get(k) {
        None => false,
        Some(n) => is_app(n.op) && (puts_ones(n) && ones_32(nodes, j, n.left.as_slice())),
    }
}

// Whether sources give 16 ones.
fn ones_16(nodes: &[FlowNode], j: usize, sources: &[FlowSource]) -> bool
    ensures { result ≡ negatives.ones_16 nodes.now j sources.now }
{
    match sources {
        [FlowSource::Node(k)] => !(*k as usize == j) && begins_at(nodes, *k as usize),
        _ => false,
    }
}

// Whether sources give 32 ones.
fn ones_32(nodes: &[FlowNode], j: usize, sources: &[FlowSource]) -> bool
    ensures { result ≡ negatives.ones_32 nodes.now j sources.now }
{
    match sources {
        [FlowSource::Node(k)] => !(*k as usize == j) && goes_on_at(nodes, j, *k as usize),
        _ => false,
    }
}

// Whether sources give 48 ones.
fn ones_48(nodes: &[FlowNode], j: usize, sources: &[FlowSource]) -> bool
    ensures { result ≡ negatives.ones_48 nodes.now j sources.now }
{
    match sources {
        [FlowSource::Node(k)] => !(*k as usize == j) && goes_further_at(nodes, j, *k as usize),
        _ => false,
    }
}

/// Whether node j ends a constant whose upper 48 bits are ones.
pub fn is_negative(nodes: &[FlowNode], j: usize, n: &FlowNode) -> bool
    ensures { result ≡ negatives.is_negative nodes.now j n.now }
{
    is_app(n.op) && (is_upper(n.imm) && ones_48(nodes, j, n.left.as_slice()))
}

/// A node that gives the negative number whose lowest 16 bits it puts.
pub fn as_negative(alloc: Global, n: &FlowNode) -> Result<FlowNode, Memory>
    requires { negatives.is_upper n.now.imm ≡ true }
    ensures { IfOk result (λ m. m ≡ negatives.as_negative n.now) }
{
    let right = Items::from_slice(alloc, n.right.as_slice())?;
    Ok(FlowNode {
        op: Op::Gens,
        imm: n.imm - 65536,
        number: n.number,
        guard: n.guard,
        left: Items::new(alloc),
        right,
    })
}
