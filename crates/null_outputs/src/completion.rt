//! The completed block, where none of its parts is above its limit.
ghost use Rattle.std.specs.Prelude.{◌≡◌, ◌<◌, ◌^◌, length, IfErr, IfOk};
ghost use Rattle.null_outputs.specs.inside.Refusals.{IsOver, IsRefusal, IsWithinLimits};
ghost use Rattle.null_outputs.specs.inside.Wants as wanted;

use crate::assembly::completed;
use crate::straight::is_straight;
use crate::supplied::is_supplied;
use base::Memory;
use ir_forms::{FlowBlock, FlowFault, Part};
use std::alloc::Global;

// The completed block of one that is not straight. Where all its outputs surely get a token, it stays as it is.
fn filled(alloc: Global, block: FlowBlock) -> Result<FlowBlock, Memory>
    requires { length block.nodes < 2 ^ 32 }
    ensures { IfOk result (λ c. c ≡ wanted.complete block) }
{
    if is_supplied(alloc, &block)? {
        return Ok(block);
    }
    completed(alloc, block)
}

// The completed block, whatever its size. A straight block stays as it is. So many nodes that their
// count is no u32 take more than any memory.
fn whole(alloc: Global, block: FlowBlock) -> Result<FlowBlock, Memory>
    ensures { IfOk result (λ c. c ≡ wanted.complete block) }
{
    if block.nodes.len() > u32::MAX as usize {
        return Err(Memory);
    }
    if is_straight(alloc, &block)? {
        return Ok(block);
    }
    filled(alloc, block)
}

// The block, unless one of its parts is above its limit.
fn limited(block: FlowBlock) -> Result<FlowBlock, FlowFault>
    ensures ok { IfOk result (λ c. (c ≡ block) × IsWithinLimits c) }
    ensures err { IfErr result (λ fault. IsOver block fault) }
{
    let insts = block.nodes.len();
    let reads = block.reads.len();
    let writes = block.writes.len();
    if insts > 128 {
        Err(FlowFault::TooBig(Part::Insts, insts))
    } else if reads > 32 {
        Err(FlowFault::TooBig(Part::Reads, reads))
    } else if writes > 32 {
        Err(FlowFault::TooBig(Part::Writes, writes))
    } else {
        Ok(block)
    }
}

/// The completed block: on every path each write and each store number of the mask gets exactly one
/// token, a null where the path leaves it untaken.
///
/// It is refused where a part of the completed block is above its limit, with the exact count, each
/// node counted as one instruction; or where memory is wanting. The laws of this crate say what the
/// completed block keeps.
pub fn complete(alloc: Global, block: FlowBlock) -> Result<FlowBlock, FlowFault>
    ensures ok { IfOk result (λ c. (c ≡ wanted.complete block) × IsWithinLimits c) }
    ensures err { IfErr result (λ fault. IsRefusal block fault) }
{
    match whole(alloc, block) {
        Ok(c) => limited(c),
        Err(_) => Err(FlowFault::Memory),
    }
}
