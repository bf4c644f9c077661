//! Whether each output of a block surely gets a token, so that nothing is added to it.
ghost use Rattle.std.specs.Prelude.{◌≡◌, ◌+◌, ◌≤◌, ◌&&◌, IfOk, length, ◌<◌, ◌^◌, drop};
ghost use Rattle.null_outputs.specs.inside.Supplied as supplied;
ghost use Rattle.null_outputs.specs.inside.Surely as surely;
ghost use Rattle.null_outputs.specs.inside.Surely.{firm_of};

use crate::numbers::number_open;
use crate::surely::{firms, sure};
use base::Memory;
use ir_forms::{FlowBlock, FlowNode, FlowWrite};
use std::alloc::Global;

// Whether each write does.
fn writes_there(
    alloc: Global,
    nodes: &[FlowNode],
    firm: &[bool],
    writes: &[FlowWrite],
) -> Result<bool, Memory>
    requires { length nodes.now < 2 ^ 32 }
    ensures { IfOk result (λ yes. yes
        ≡ supplied.writes_there (surely.sure_of nodes.now (firm_of firm.now)) writes.now) }
{
    for w in writes {
        if !sure(alloc, nodes, firm, None, w.sources.as_slice())? {
            return Ok(false);
        }
    }
    Ok(true)
}

// Whether each of m store numbers from k on does that the mask has.
fn numbers_there(
    alloc: Global,
    block: &FlowBlock,
    firm: &[bool],
    k: u8,
    m: u8,
) -> Result<bool, Memory>
    requires few { length block.now.nodes < 2 ^ 32 }
    requires numbers { k + m ≤ 32 }
    ensures { IfOk result (λ yes. yes
        ≡ supplied.numbers_there (surely.sure_of block.now.nodes (firm_of firm.now)) block.now k m) }
{
    if m == 0 {
        return Ok(true);
    }
    let open = number_open(alloc, block, firm, k)?;
    if open {
        return Ok(false);
    }
    let rest = numbers_there(alloc, block, firm, k + 1, m - 1)?;
    Ok(rest)
}

// The same of all numbers.
fn all_numbers_there(alloc: Global, block: &FlowBlock, firm: &[bool]) -> Result<bool, Memory>
    requires { length block.now.nodes < 2 ^ 32 }
    ensures { IfOk result (λ yes. yes
        ≡ supplied.all_numbers_there (surely.sure_of block.now.nodes (firm_of firm.now)) block.now) }
{
    numbers_there(alloc, block, firm, 0, 32)
}

// Whether each output does, where these nodes are firm.
fn outputs_there(alloc: Global, block: &FlowBlock, firm: &[bool]) -> Result<bool, Memory>
    requires { length block.now.nodes < 2 ^ 32 }
    ensures { IfOk result (λ yes. yes
        ≡ (supplied.writes_there (surely.sure_of block.now.nodes (firm_of firm.now)) block.now.writes
        && supplied.all_numbers_there (surely.sure_of block.now.nodes (firm_of firm.now)) block.now)) }
{
    let writes = writes_there(alloc, block.nodes.as_slice(), firm, block.writes.as_slice())?;
    let numbers = all_numbers_there(alloc, block, firm)?;
    Ok(writes && numbers)
}

/// Whether each output of a block surely gets a token.
pub fn is_supplied(alloc: Global, block: &FlowBlock) -> Result<bool, Memory>
    requires { length block.now.nodes < 2 ^ 32 }
    ensures { IfOk result (λ yes. yes ≡ supplied.is_supplied block.now) }
{
    let firm = firms(alloc, block.nodes.as_slice())?;
    let there = outputs_there(alloc, block, firm.as_slice())?;
    Ok(there)
}
