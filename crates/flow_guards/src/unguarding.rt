//! The pass.
ghost use Rattle.std.specs.Prelude.{◌≡◌, IfOk, true};
ghost use Rattle.flow_guards.specs.inside.Unguards as defined;
ghost use Rattle.flow_guards.specs.inside.Unguards.{Unguards, marked};

use crate::guessing::{any_guarded, any_marked, guessed};
use crate::judging::may_lose;
use crate::loosening::unguarded;
use base::{Items, Memory};
use ir_forms::FlowBlock;
use std::alloc::Global;

// The marks, where their nodes may lose their guards, and else none.
#[tactic(auto, using(crate::proofs::Chosen::none_marked))]
fn chosen(alloc: Global, block: &FlowBlock) -> Result<Items<bool>, Memory>
    ensures { IfOk result (λ marks. defined.may_lose (marked marks) block.now ≡ true) }
{
    let marks = guessed(alloc, block)?;
    if may_lose(block, marks.as_slice()) {
        return Ok(marks);
    }
    Ok(Items::new(alloc))
}

/// The block in which no node has a guard that nobody sees. Memory alone refuses it.
pub fn unguard(alloc: Global, block: FlowBlock) -> Result<FlowBlock, Memory>
    ensures { IfOk result (λ g. Unguards block g) }
{
    if !any_guarded(block.nodes.as_slice()) {
        return Ok(block);
    }
    let marks = chosen(alloc, &block)?;
    if !any_marked(marks.as_slice()) {
        return Ok(block);
    }
    unguarded(alloc, marks.as_slice(), block)
}
