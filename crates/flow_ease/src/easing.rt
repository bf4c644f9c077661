//! All passes over a flow block, one after the other.
ghost use Rattle.std.specs.Prelude.{IfOk};
ghost use Rattle.flow_ease.specs.inside.Eases.{Eases};

use base::Memory;
use flow_fold::{fold, share, stride, sweep};
use flow_guards::unguard;
use ir_forms::FlowBlock;
use std::alloc::Global;

/// A block that may stand for a flow block, as the passes make it: guards that nobody needs are taken off, what is
/// done twice is done once, copies and constants are taken into the nodes that use them, what is a small number more
/// than what another gives is made of that, and what nothing names any more goes. Memory alone refuses it.
pub fn ease(alloc: Global, block: FlowBlock) -> Result<FlowBlock, Memory>
    ensures { IfOk result (λ eased. Eases block eased) }
{
    let loose = unguard(alloc, block)?;
    let shared = share(alloc, loose)?;
    // so that folding counts no use by a copy that nothing takes
    let lean = sweep(alloc, shared)?;
    let folded = fold(alloc, lean)?;
    let few = sweep(alloc, folded)?;
    let strided = stride(alloc, few)?;
    let swept = sweep(alloc, strided)?;
    Ok(swept)
}
