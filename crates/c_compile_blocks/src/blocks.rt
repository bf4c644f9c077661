//! The machine blocks of narrowed blocks: the passes, one after the other.
ghost use Rattle.std.specs.Prelude.{◌≡◌, ◌≤◌, ◌<◌, ◌^◌, ◌++◌, ◌∷◌, [], false, true, length, map};
ghost use Rattle.std.specs.Prelude.{IfErr, IfOk, IfSome, OnOk};
ghost use Rattle.ir_forms.specs.declared.fault.FlowFault.TheVariants.{Memory};
ghost use Rattle.ir_forms.specs.inside.HyperFits.{FitsHyper, IsFollowed, IsSmall};
ghost use Rattle.ir_forms.specs.inside.HyperViews.{tail_of};
ghost use Rattle.hyper_narrow.specs.inside.NarrowedCode.{bare};
ghost use Rattle.hyper_narrow.specs.inside.NarrowedViews.{narrowed_blocks, narrowed_of};
ghost use Rattle.predication.specs.inside.Outcomes.{NamesLabels};
ghost use Rattle.c_compile_blocks.specs.inside.Limits.{FitsMachine};
ghost use Rattle.c_compile_blocks.specs.inside.Blocks.{ArePassed, AreMachineBlocks, IsMachineBlock, IsPassed};
ghost use Rattle.c_compile_blocks.specs.inside.Passing.{IsFlow, IsPlacedFlow};
ghost use Rattle.c_compile_blocks.specs.inside.Refusals.{FitMachine, HasRefused, IsRefused};
ghost use Rattle.fan_out.specs.inside.Refusals as targets;
ghost use Rattle.flow_ease.specs.inside.Eases.{Eases};
ghost use Rattle.ir_forms.specs.inside.Limits.{label_count};

use crate::filled::keeps_guards;
use base::Items;
use fan_out::target;
use flow_ease::ease;
use grid_place::{Placing, place};
use hyper_narrow::{NarrowedBlock, NarrowedProgram};
use ir_forms::{FlowBlock, FlowFault};
use null_outputs::complete;
use predication::convert;
use std::alloc::Global;
use trips_isa::Block;

// The flow block of a narrowed block: predicated and completed.
fn flow_block(alloc: Global, block: &NarrowedBlock) -> Result<FlowBlock, FlowFault>
    requires labels { NamesLabels (tail_of block.now.block.tail) }
    ensures ok { IfOk result (λ f. IsFlow (narrowed_of block.now) f) }
    ensures err { IfErr result (λ e. IsRefused (narrowed_of block.now) e) }
{
    let flow = complete(alloc, convert(alloc, block)?)?;
    Ok(flow)
}

// The machine block of a flow block: with targets, and placed.
fn placed_block(alloc: Global, flow: &FlowBlock, placing: Placing) -> Result<Block, FlowFault>
    requires few { length flow.now.nodes < 2 ^ 32 }
    ensures ok { IfOk result (λ u. IsPlacedFlow placing flow.now u) }
    ensures err { IfErr result (λ e. targets.IsRefusal flow.now e) }
{
    match place(alloc, &target(alloc, flow)?, placing) {
        Ok(placed) => Ok(placed),
        Err(_) => Err(FlowFault::Memory),
    }
}

// The machine block of the flow block as it is.
fn plain_block(alloc: Global, block: &NarrowedBlock, placing: Placing) -> Result<Block, FlowFault>
    requires labels { NamesLabels (tail_of block.now.block.tail) }
    ensures ok { IfOk result (λ u. IsPassed false placing (narrowed_of block.now) u) }
    ensures err { IfErr result (λ e. IsRefused (narrowed_of block.now) e) }
{
    let flow = flow_block(alloc, block)?;
    let placed = placed_block(alloc, &flow, placing)?;
    Ok(placed)
}

// A block that may stand for a flow block. Memory alone refuses it.
fn eased_flow(alloc: Global, flow: FlowBlock) -> Result<FlowBlock, FlowFault>
    ensures ok { IfOk result (λ g. Eases flow g) }
    ensures err { IfErr result (λ e. e ≡ Memory) }
{
    match ease(alloc, flow) {
        Ok(eased) => Ok(eased),
        Err(_) => Err(FlowFault::Memory),
    }
}

// The machine block of a flow block; none where it is too big.
fn placed_or_none(
    alloc: Global,
    flow: &FlowBlock,
    placing: Placing,
) -> Result<Option<Block>, FlowFault>
    requires few { length flow.now.nodes < 2 ^ 32 }
    ensures ok { IfOk result (λ o. IfSome o (λ u. IsPlacedFlow placing flow.now u)) }
    ensures err { IfErr result (λ e. e ≡ Memory) }
{
    match placed_block(alloc, flow, placing) {
        Ok(placed) => Ok(Some(placed)),
        Err(FlowFault::TooBig(_, _)) => Ok(None),
        Err(FlowFault::Memory) => Err(FlowFault::Memory),
    }
}

// The machine block of the eased flow block; none where that is too big, or has not a guard for each filled
// if-item.
fn eased_block(
    alloc: Global,
    block: &NarrowedBlock,
    placing: Placing,
) -> Result<Option<Block>, FlowFault>
    requires labels { NamesLabels (tail_of block.now.block.tail) }
    ensures ok { IfOk result (λ o. IfSome o (λ u. IsPassed true placing (narrowed_of block.now) u)) }
    ensures err { IfErr result (λ e. IsRefused (narrowed_of block.now) e) }
{
    let flow = flow_block(alloc, block)?;
    let eased = eased_flow(alloc, flow)?;
    if eased.nodes.len() > 128 {
        return Ok(None);
    }
    if !keeps_guards(&block.block, &eased) {
        return Ok(None);
    }
    let placed = placed_or_none(alloc, &eased, placing)?;
    Ok(placed)
}

// The machine block of a narrowed block, of the eased flow block where that is asked for and may be.
fn passed_block(
    alloc: Global,
    block: &NarrowedBlock,
    placing: Placing,
    is_eased: bool,
) -> Result<Block, FlowFault>
    requires labels { NamesLabels (tail_of block.now.block.tail) }
    ensures ok { IfOk result (λ u. IsPassed is_eased placing (narrowed_of block.now) u) }
    ensures err { IfErr result (λ e. IsRefused (narrowed_of block.now) e) }
{
    if !is_eased {
        return plain_block(alloc, block, placing);
    }
    match eased_block(alloc, block, placing)? {
        Some(eased) => Ok(eased),
        None => plain_block(alloc, block, placing),
    }
}

/// The machine block of a narrowed block: predicated, completed, eased where that is asked for, with targets, and
/// placed. Its labels stand in immediates until the blocks are laid out.
///
/// It is refused as the first pass that refuses it says; what is too big when it is eased is taken as it was before.
/// A block within all limits of the machine, as a plan that cuts everywhere makes them (`little_blocks_fit`), is
/// refused for want of memory alone; where it is not eased its cases are few. So is every small block
/// (`small_blocks_fit`).
pub fn machine_block(
    alloc: Global,
    block: &NarrowedBlock,
    placing: Placing,
    is_eased: bool,
) -> Result<Block, FlowFault>
    requires labels { NamesLabels (tail_of block.now.block.tail) }
    ensures ok { IfOk result (λ u. IsPassed is_eased placing (narrowed_of block.now) u) }
    ensures err { IfErr result (λ e. IsRefused (narrowed_of block.now) e) }
    ensures machine { IfOk result (λ u. is_eased ≡ false → FitsMachine (narrowed_of block.now)
        → IsMachineBlock placing (narrowed_of block.now) u) }
    ensures fits { IfErr result (λ e. FitsMachine (narrowed_of block.now) → e ≡ Memory) }
    ensures small { IfErr result (λ e. IsSmall (narrowed_of block.now).block
        → FitsHyper (narrowed_of block.now).block → e ≡ Memory) }
{
    passed_block(alloc, block, placing, is_eased)
}

// Keeps one block more.
fn keep(blocks: &mut Items<Block>, block: Block) -> Result<(), FlowFault>
    ensures ok { OnOk result (blocks.new ≡ blocks.old ++ block ∷ []) }
    ensures err { IfErr result (λ e. e ≡ Memory) }
{
    match blocks.push(block) {
        Ok(()) => Ok(()),
        Err(_) => Err(FlowFault::Memory),
    }
}

// The machine blocks of the blocks of a narrowed program, or the refusal of the first that is refused.
fn all_blocks(
    alloc: Global,
    program: &[NarrowedBlock],
    placing: Placing,
    is_eased: bool,
) -> Result<Items<Block>, FlowFault>
    requires followed { IsFollowed (bare (map narrowed_of program.now)) }
    requires few { length (map narrowed_of program.now) ≤ label_count }
    ensures ok { IfOk result (λ us. ArePassed is_eased placing (map narrowed_of program.now) us) }
    ensures err { IfErr result (λ e.
        HasRefused is_eased placing (map narrowed_of program.now) e) }
{
    let mut blocks = Items::new(alloc);
    for block in program {
        keep(&mut blocks, machine_block(alloc, block, placing, is_eased)?)?;
    }
    Ok(blocks)
}

/// The machine blocks of a narrowed program, or the refusal of its first block that is refused.
pub fn machine_blocks(
    alloc: Global,
    program: &NarrowedProgram,
    placing: Placing,
    is_eased: bool,
) -> Result<Items<Block>, FlowFault>
    requires followed { IsFollowed (bare (narrowed_blocks program.now)) }
    requires few { length (narrowed_blocks program.now) ≤ label_count }
    ensures ok { IfOk result (λ us. ArePassed is_eased placing (narrowed_blocks program.now) us) }
    ensures err { IfErr result (λ e. HasRefused is_eased placing (narrowed_blocks program.now) e) }
    ensures machine { IfOk result (λ us. is_eased ≡ false → FitMachine (narrowed_blocks program.now)
        → AreMachineBlocks placing (narrowed_blocks program.now) us) }
    ensures fits { IfErr result (λ e. FitMachine (narrowed_blocks program.now) → e ≡ Memory) }
{
    all_blocks(alloc, program.blocks.as_slice(), placing, is_eased)
}
