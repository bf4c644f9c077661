//! Words that are 0 or 1, and tests against 0 that leave them as they are.

ghost use Rattle.std.specs.Prelude.{◌≡◌, IfOk, slice_get};
ghost use Rattle.flow_fold.specs.inside.Tests as tests;

use crate::constants::{gives_constant, small_of};
use crate::copies::is_mov;
use base::{Items, Memory};
use ir_forms::{FlowNode, FlowSource};
use std::alloc::Global;
use trips_isa::Op;

// Whether an operation tests, and so gives 0 or 1.
fn is_test(op: Op) -> bool
    ensures { result ≡ tests.is_test op }
{
    match op {
        Op::Teq | Op::Tne | Op::Tlt | Op::Tle | Op::Tgt | Op::Tge => true,
        Op::Tltu | Op::Tleu | Op::Tgtu | Op::Tgeu => true,
        Op::Teqi | Op::Tnei | Op::Tlti | Op::Tlei | Op::Tgti | Op::Tgei => true,
        Op::Tltui | Op::Tleui | Op::Tgtui | Op::Tgeui => true,
        _ => false,
    }
}

// Whether a number is 0 or 1.
fn is_bit(imm: i32) -> bool
    ensures { result ≡ tests.is_bit imm }
{
    0 <= imm && imm < 2
}

// Whether a node gives no other word than 0 and 1 by what it does itself.
fn is_own_bit(n: &FlowNode) -> bool
    ensures { result ≡ tests.is_own_bit n.now }
{
    is_test(n.op) || (gives_constant(n.op) && is_bit(n.imm))
}

// No sources, where copies are not looked at.
fn no_copies(_sources: &[FlowSource]) -> bool
    ensures { result ≡ tests.no_copies _sources.now }
{
    false
}

// Whether node k gives no other word than 0 and 1, where copies are not looked at.
fn plain_at(nodes: &[FlowNode], j: usize, k: usize) -> bool
    ensures { result ≡ tests.bit_at tests.no_copies (slice_get nodes.now k) }
{
    match nodes.get(k) {
        None => false,
        Some(n) => is_own_bit(n) || (is_mov(n.op) && no_copies(n.left.as_slice())),
    }
}

// Whether a source is a node other than node j that does.
fn plain_bit(nodes: &[FlowNode], j: usize, s: FlowSource) -> bool
    ensures { result ≡ tests.is_bit_source tests.no_copies nodes.now j s }
{
    match s {
        FlowSource::Read(_) => false,
        FlowSource::Node(k) => !(k as usize == j) && plain_at(nodes, j, k as usize),
    }
}

// Whether all sources are such.
fn plain_bits(nodes: &[FlowNode], j: usize, sources: &[FlowSource]) -> bool
    ensures { result ≡ tests.plain_bits nodes.now j sources.now }
{
    match sources {
        [] => true,
        [s, rest @ ..] => plain_bit(nodes, j, *s) && plain_bits(nodes, j, rest),
    }
}

// Whether node k gives no other word than 0 and 1, where copies are.
fn copied_at(nodes: &[FlowNode], j: usize, k: usize) -> bool
    ensures { result ≡ tests.bit_at (tests.plain_bits nodes.now j) (slice_get nodes.now k) }
{
    match nodes.get(k) {
        None => false,
        Some(n) => is_own_bit(n) || (is_mov(n.op) && plain_bits(nodes, j, n.left.as_slice())),
    }
}

// Whether a source is a node other than node j that does.
fn copied_bit(nodes: &[FlowNode], j: usize, s: FlowSource) -> bool
    ensures { result ≡ tests.is_bit_source (tests.plain_bits nodes.now j) nodes.now j s }
{
    match s {
        FlowSource::Read(_) => false,
        FlowSource::Node(k) => !(k as usize == j) && copied_at(nodes, j, k as usize),
    }
}

// Whether all sources are such.
fn copied_bits(nodes: &[FlowNode], j: usize, sources: &[FlowSource]) -> bool
    ensures { result ≡ tests.copied_bits nodes.now j sources.now }
{
    match sources {
        [] => true,
        [s, rest @ ..] => copied_bit(nodes, j, *s) && copied_bits(nodes, j, rest),
    }
}

// Whether node k gives no other word than 0 and 1, where copies of copies are.
fn joined_at(nodes: &[FlowNode], j: usize, k: usize) -> bool
    ensures { result ≡ tests.bit_at (tests.copied_bits nodes.now j) (slice_get nodes.now k) }
{
    match nodes.get(k) {
        None => false,
        Some(n) => is_own_bit(n) || (is_mov(n.op) && copied_bits(nodes, j, n.left.as_slice())),
    }
}

// Whether a source is a node other than node j that does.
fn joined_bit(nodes: &[FlowNode], j: usize, s: FlowSource) -> bool
    ensures { result ≡ tests.is_bit_source (tests.copied_bits nodes.now j) nodes.now j s }
{
    match s {
        FlowSource::Read(_) => false,
        FlowSource::Node(k) => !(k as usize == j) && joined_at(nodes, j, k as usize),
    }
}

// Whether all sources are such.
fn are_bits(nodes: &[FlowNode], j: usize, sources: &[FlowSource]) -> bool
    ensures { result ≡ tests.are_bits nodes.now j sources.now }
{
    match sources {
        [] => true,
        [s, rest @ ..] => joined_bit(nodes, j, *s) && are_bits(nodes, j, rest),
    }
}

// Whether an operation tells whether its operand is another number than its immediate.
fn is_tnei(op: Op) -> bool
    ensures { result ≡ tests.is_tnei op }
{
    match op {
        Op::Tnei => true,
        _ => false,
    }
}

/// Whether a number is 0.
pub fn is_zero(imm: i32) -> bool
    ensures { result ≡ tests.is_zero imm }
{
    0 <= imm && imm < 1
}

/// Whether node j tells of a word that is 0 or 1 whether it is not 0.
pub fn tells_bit(nodes: &[FlowNode], j: usize, n: &FlowNode) -> bool
    ensures { result ≡ tests.tells_bit nodes.now j n.now }
{
    is_tnei(n.op) && (is_zero(n.imm) && are_bits(nodes, j, n.left.as_slice()))
}

/// A node that copies what it takes at its left.
pub fn as_copy(alloc: Global, n: &FlowNode) -> Result<FlowNode, Memory>
    ensures { IfOk result (λ m. m ≡ tests.as_copy n.now) }
{
    let left = Items::from_slice(alloc, n.left.as_slice())?;
    let right = Items::from_slice(alloc, n.right.as_slice())?;
    Ok(FlowNode {
        op: Op::Mov,
        imm: 0,
        number: n.number,
        guard: n.guard,
        left,
        right,
    })
}

/// Whether node j tells whether a word that is 0 or 1 is not the constant 0 at its right.
pub fn may_tell(nodes: &[FlowNode], j: usize, n: &FlowNode) -> bool {
    match n.op {
        Op::Tne => match small_of(nodes, n.right.as_slice()) {
            None => false,
            Some(imm) => is_zero(imm) && are_bits(nodes, j, n.left.as_slice()),
        },
        _ => false,
    }
}
