//! Nodes, one at a time.
ghost use Rattle.std.specs.Prelude.{◌≡◌, [], ◌∷◌, length, pos, IfOk, OnOk};
ghost use Rattle.predication.specs.inside.Operands as spec;
ghost use Rattle.predication.specs.inside.Emits.{Adds, node};

use crate::work::Work;
use base::{Items, Memory};
use ir_forms::{FlowNode, FlowSource, Guard};
use std::alloc::Global;
use trips_isa::Op;

/// One more node, and its number.
pub fn push(
    work: &mut Work,
    op: Op,
    imm: i32,
    number: usize,
    guard: Option<Guard>,
    left: Items<FlowSource>,
    right: Items<FlowSource>,
) -> Result<u32, Memory>
    ensures at { IfOk result (λ k. k ≡ length work.old.nodes) }
    ensures adds { OnOk result (Adds work.old work.new
        (node op imm number guard left right ∷ [])) }
{
    let Ok(at) = u32::try_from(work.nodes.len()) else {
        return Err(Memory);
    };
    let number = (number % 256) as u8;
    work.nodes.push(FlowNode {
        op,
        imm,
        number,
        guard,
        left,
        right,
    })?;
    Ok(at)
}

/// A `mov` of sources.
pub fn push_mov(
    alloc: Global,
    work: &mut Work,
    guard: Option<Guard>,
    left: Items<FlowSource>,
) -> Result<u32, Memory>
    ensures at { IfOk result (λ k. k ≡ length work.old.nodes) }
    ensures adds { OnOk result (Adds work.old work.new (spec.mov_of guard left ∷ [])) }
{
    push(work, Op::Mov, 0, 0, guard, left, Items::new(alloc))
}

/// Whether the word of sources is not 0.
pub fn push_test(
    alloc: Global,
    work: &mut Work,
    guard: Option<Guard>,
    left: Items<FlowSource>,
) -> Result<u32, Memory>
    ensures at { IfOk result (λ k. k ≡ length work.old.nodes) }
    ensures adds { OnOk result (Adds work.old work.new (spec.test_of guard left ∷ [])) }
{
    push(work, Op::Tnei, 0, 0, guard, left, Items::new(alloc))
}

/// A constant of 16 bits.
pub fn push_constant(
    alloc: Global,
    work: &mut Work,
    op: Op,
    word: u16,
    left: Items<FlowSource>,
) -> Result<u32, Memory>
    ensures at { IfOk result (λ k. k ≡ length work.old.nodes) }
    ensures adds { OnOk result (Adds work.old work.new (spec.constant_of op word left ∷ [])) }
{
    push(work, op, word as i32, 0, None, left, Items::new(alloc))
}
