//! The trimmed program.
ghost use Rattle.std.specs.Prelude.{◌≡◌, IfOk, map};
ghost use Rattle.ir_forms.specs.inside.HyperViews.{block_of, blocks_of};
ghost use Rattle.hyper_trim.specs.inside.Alive as spec;
ghost use Rattle.hyper_trim.specs.inside.Forward as forwarding;
ghost use Rattle.hyper_narrow.specs.inside.NarrowedViews as views;
ghost use Rattle.hyper_narrow.specs.inside.NarrowedViews.{narrowed_of};
ghost use Rattle.hyper_trim.specs.inside.Laws.{Trims};
ghost use Rattle.hyper_trim.specs.inside.Narrows.{Narrows};

use crate::alive::{guess, is_closed, lasting_tail, union, walked_block};
use crate::forwarding::{forward_items, forward_tail};
use crate::walking::turned;
use base::{Items, Memory, Queue};
use hyper_narrow::{Lasting, NarrowedBlock, NarrowedProgram, whole_program};
use ir_forms::{HyperBlock, HyperProgram};
use std::alloc::Global;

fn trimmed_block(
    alloc: Global,
    block: HyperBlock,
    table: &[u128],
    ret: u128,
) -> Result<HyperBlock, Memory>
    ensures { IfOk result (λ b. block_of b ≡ spec.trim_block table.now ret (block_of block)) }
{
    let walk = walked_block(&block, alloc, table, ret)?;
    let HyperBlock { items: _, tail } = block;
    Ok(HyperBlock {
        items: turned(walk.kept),
        tail,
    })
}

fn narrowed_block(
    alloc: Global,
    block: HyperBlock,
    table: &[u128],
    ret: u128,
) -> Result<NarrowedBlock, Memory>
    ensures { IfOk result (λ b. narrowed_of b ≡ spec.narrow_block table.now ret (block_of block)) }
{
    let set = lasting_tail(&block.tail, table, ret);
    let block = trimmed_block(alloc, block, table, ret)?;
    Ok(NarrowedBlock {
        block,
        lasting: Lasting::Those(set),
    })
}

fn narrowed_blocks(
    alloc: Global,
    blocks: Items<HyperBlock>,
    table: &[u128],
    ret: u128,
) -> Result<Items<NarrowedBlock>, Memory>
    ensures { IfOk result (λ all. map narrowed_of all
        ≡ map (spec.narrow_block table.now ret) (map block_of blocks)) }
{
    let mut all = Items::new(alloc);
    let mut rest = Queue::from_items(blocks);
    while let Some(block) = rest.pop() {
        all.push(narrowed_block(alloc, block, table, ret)?)?;
    }
    Ok(all)
}

/// Without the operations whose register nobody reads, and with what outlasts each block.
fn dropped(alloc: Global, program: HyperProgram) -> Result<NarrowedProgram, Memory>
    ensures { IfOk result (λ left. Narrows (blocks_of program) (views.narrowed_blocks left)) }
{
    let table = guess(program.blocks.as_slice(), alloc)?;
    let ret = union(table.as_slice());
    if !is_closed(program.blocks.as_slice(), alloc, table.as_slice(), ret)? {
        return whole_program(alloc, program);
    }
    let HyperProgram { blocks } = program;
    let blocks = narrowed_blocks(alloc, blocks, table.as_slice(), ret)?;
    Ok(NarrowedProgram { blocks })
}

fn forwarded_block(alloc: Global, block: HyperBlock) -> Result<HyperBlock, Memory>
    ensures { IfOk result (λ b. block_of b ≡ forwarding.forward_block (block_of block)) }
{
    let HyperBlock { items, tail } = block;
    let mut entries = Items::new(alloc);
    let items = forward_items(items.as_slice(), alloc, &mut entries)?;
    let tail = forward_tail(tail, alloc, entries.as_slice())?;
    Ok(HyperBlock { items, tail })
}

fn forwarded_blocks(alloc: Global, blocks: Items<HyperBlock>) -> Result<Items<HyperBlock>, Memory>
    ensures { IfOk result (λ all. map block_of all
        ≡ map forwarding.forward_block (map block_of blocks)) }
{
    let mut all = Items::new(alloc);
    let mut rest = Queue::from_items(blocks);
    while let Some(block) = rest.pop() {
        all.push(forwarded_block(alloc, block)?)?;
    }
    Ok(all)
}

/// With copies and constants forwarded inside each block.
fn forwarded(alloc: Global, program: HyperProgram) -> Result<HyperProgram, Memory>
    ensures { IfOk result (λ left. Trims (blocks_of program) (blocks_of left)) }
{
    let HyperProgram { blocks } = program;
    let blocks = forwarded_blocks(alloc, blocks)?;
    Ok(HyperProgram { blocks })
}

/// A hyper program whose copies and constants are forwarded inside each block, without the operations whose register
/// nobody reads, and with what outlasts each block. Want of memory is the only error.
pub fn trim(alloc: Global, program: HyperProgram) -> Result<NarrowedProgram, Memory>
    ensures { IfOk result (λ left. Narrows (blocks_of program) (views.narrowed_blocks left)) }
{
    let program = forwarded(alloc, program)?;
    dropped(alloc, program)
}
