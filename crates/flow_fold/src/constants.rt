//! Small constants, and the operations that take them.

ghost use Rattle.std.specs.Prelude.{◌≡◌, slice_get};
ghost use Rattle.flow_fold.specs.inside.Immediates as small;

use ir_forms::{FlowNode, FlowSource};
use trips_isa::Op;

/// The operation that takes its right operand from its immediate.
pub fn immediate_of(op: Op) -> Option<Op>
    ensures { result ≡ small.immediate_of op }
{
    match op {
        Op::Add => Some(Op::Addi),
        Op::Sub => Some(Op::Subi),
        Op::Mul => Some(Op::Muli),
        Op::And => Some(Op::Andi),
        Op::Or => Some(Op::Ori),
        Op::Xor => Some(Op::Xori),
        Op::Sll => Some(Op::Slli),
        Op::Srl => Some(Op::Srli),
        Op::Sra => Some(Op::Srai),
        Op::Teq => Some(Op::Teqi),
        Op::Tne => Some(Op::Tnei),
        Op::Tlt => Some(Op::Tlti),
        Op::Tle => Some(Op::Tlei),
        Op::Tgt => Some(Op::Tgti),
        Op::Tge => Some(Op::Tgei),
        Op::Tltu => Some(Op::Tltui),
        Op::Tleu => Some(Op::Tleui),
        Op::Tgtu => Some(Op::Tgtui),
        Op::Tgeu => Some(Op::Tgeui),
        _ => None,
    }
}

/// Whether an operation gives its constant as a word.
pub fn gives_constant(op: Op) -> bool
    ensures { result ≡ small.gives_constant op }
{
    match op {
        Op::Genu | Op::Gens => true,
        _ => false,
    }
}

/// Whether a number lies in the 9 bits of an immediate.
pub fn is_small(imm: i32) -> bool
    ensures { result ≡ small.is_small imm }
{
    -256 <= imm && imm < 256
}

// Whether a node gives a small constant, wherever the block goes.
fn is_small_constant(n: &FlowNode) -> bool
    ensures { result ≡ small.is_small_constant n.now }
{
    gives_constant(n.op) && (n.guard.is_none() && is_small(n.imm))
}

// The small constant of node k, where there is one.
fn constant_at(nodes: &[FlowNode], k: usize) -> Option<i32>
    ensures { result ≡ small.constant_at (slice_get nodes.now k) }
{
    match nodes.get(k) {
        None => None,
        Some(c) => {
            if is_small_constant(c) {
                Some(c.imm)
            } else {
                None
            }
        }
    }
}

/// The small constant that some sources always give.
pub fn small_of(nodes: &[FlowNode], sources: &[FlowSource]) -> Option<i32>
    ensures { result ≡ small.small_of nodes.now sources.now }
{
    match sources {
        [FlowSource::Node(k)] => constant_at(nodes, *k as usize),
        _ => None,
    }
}
