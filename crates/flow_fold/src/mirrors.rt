//! Operations that give of two operands what another gives of them the other way round.

ghost use Rattle.std.specs.Prelude.{◌≡◌, IfOk};
ghost use Rattle.flow_fold.specs.inside.Mirrors as mirrors;

use crate::constants::small_of;
use base::{Items, Memory};
use ir_forms::FlowNode;
use std::alloc::Global;
use trips_isa::Op;

/// The operation that gives of two operands what another gives of them the other way round.
pub fn mirror_of(op: Op) -> Option<Op>
    ensures { result ≡ mirrors.mirror_of op }
{
    match op {
        Op::Add => Some(Op::Add),
        Op::Mul => Some(Op::Mul),
        Op::And => Some(Op::And),
        Op::Or => Some(Op::Or),
        Op::Xor => Some(Op::Xor),
        Op::Teq => Some(Op::Teq),
        Op::Tne => Some(Op::Tne),
        Op::Tlt => Some(Op::Tgt),
        Op::Tle => Some(Op::Tge),
        Op::Tgt => Some(Op::Tlt),
        Op::Tge => Some(Op::Tle),
        Op::Tltu => Some(Op::Tgtu),
        Op::Tleu => Some(Op::Tgeu),
        Op::Tgtu => Some(Op::Tltu),
        Op::Tgeu => Some(Op::Tleu),
        _ => None,
    }
}

/// A node with its operands the other way round.
pub fn mirrored(alloc: Global, n: &FlowNode, op: Op) -> Result<FlowNode, Memory>
    ensures { IfOk result (λ m. m ≡ mirrors.mirrored n.now op) }
{
    let left = Items::from_slice(alloc, n.right.as_slice())?;
    let right = Items::from_slice(alloc, n.left.as_slice())?;
    Ok(FlowNode {
        op,
        imm: 0,
        number: n.number,
        guard: n.guard,
        left,
        right,
    })
}

/// Whether a small constant stands at the left alone, for a choice of which nothing is claimed.
pub fn may_mirror(nodes: &[FlowNode], n: &FlowNode) -> bool {
    small_of(nodes, n.left.as_slice()).is_some() && small_of(nodes, n.right.as_slice()).is_none()
}
