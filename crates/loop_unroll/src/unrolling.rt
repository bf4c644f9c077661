//! Self loops that do several turns in one block.

ghost use Rattle.std.specs.Prelude.{◌≡◌, ◌≤◌, length, IfOk};
ghost use Rattle.ir_forms.specs.inside.HyperViews.{block_of, blocks_of};
ghost use Rattle.ir_forms.specs.inside.Limits.{label_count};
ghost use Rattle.loop_unroll.specs.inside.Unrolled.{asked, loop_of, unrolled, unrolled_by};

use crate::copying::{copy_items, copy_tail};
use crate::holding::held_turns;
use crate::loops::loop_of;
use base::{Items, Memory};
use ir_forms::{HyperBlock, HyperProgram};
use std::alloc::Global;

/// The most copies of a turn.
const MOST: u8 = 8;

/// How many turns more than one an entry asks for: 0 is read as 1, and what is above 8 as 8; a missing one as 1.
fn asked(times: &[u8], number: usize) -> u8
    ensures { result ≡ asked times.now number }
{
    match times.get(number) {
        None => 0,
        Some(times) => {
            if *times < MOST {
                times.saturating_sub(1)
            } else {
                MOST - 1
            }
        }
    }
}

/// A copy of a block, which does so many turns more than one where it is a self loop. Want of memory is the only
/// error.
pub fn unrolled_block(
    alloc: Global,
    block: &HyperBlock,
    number: u32,
    more: u8,
) -> Result<HyperBlock, Memory>
    ensures { IfOk result (λ b. block_of b
        ≡ unrolled_by (loop_of number (block_of block.now).tail) more (block_of block.now)) }
{
    let items = match loop_of(number, &block.tail) {
        None => copy_items(alloc, block.items.as_slice())?,
        Some(around) => held_turns(alloc, around, block.items.as_slice(), more)?,
    };
    Ok(HyperBlock {
        items,
        tail: copy_tail(alloc, &block.tail)?,
    })
}

/// Each self loop of a program with as many turns in its block as its entry asks for; other blocks stay. Want of
/// memory is the only error.
pub fn unroll(alloc: Global, program: HyperProgram, times: &[u8]) -> Result<HyperProgram, Memory>
    requires few { length (blocks_of program) ≤ label_count }
    ensures { IfOk result (λ p. blocks_of p ≡ unrolled times.now (blocks_of program)) }
{
    let mut blocks = Items::new(alloc);
    let mut number: u32 = 0;
    for block in program.blocks.as_slice() {
        let more = asked(times, number as usize);
        blocks.push(unrolled_block(alloc, block, number, more)?)?;
        number += 1;
    }
    Ok(HyperProgram { blocks })
}
