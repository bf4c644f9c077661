//! A block.
ghost use Rattle.std.specs.Prelude.{◌≡◌, ◌≤◌, ◌<◌, ◌^◌, ◌+◌, length, IfOk};
ghost use Rattle.target_asm_spec.specs.inside.Blocks.{head_in, one_block};
ghost use Rattle.target_asm.specs.inside.Taking.{Returns, seen};
ghost use Rattle.trips_isa.specs.Limits.{most_chunks};

use crate::branches::Known;
use crate::registers::block_line;
use crate::rows::{is_place, reads, writes};
use crate::slots::slots;
use arrayvec::ArrayVec;
use target_asm_spec::AsmFault;
use trips_isa::Block;

/// A block that was read, the number of the next line and what is left.
#[derive(Drop)]
pub struct ReadBlock<'a> {
    pub block: Block,
    pub line: u32,
    pub rest: &'a [u8],
}

/// The mask of block k, of which the line of the block takes two chunks.
#[tactic(auto, unfolding(target_asm_spec::specs::inside::Blocks::head_in))]
fn head(k: usize, here: u32, line: u32, text: &[u8]) -> Result<(u32, &[u8]), AsmFault>
    requires { here < 2 ^ 30 }
    ensures value { Returns (λ r. (r.0, r.1.now)) result (head_in k here line text.now) }
    ensures room { IfOk result (λ r. here + 2 ≤ most_chunks) }
{
    let Some(spelled) = block_line(text) else {
        return Err(AsmFault::Syntax(line));
    };
    if !is_place(spelled.0.number, k) {
        return Err(AsmFault::Syntax(line));
    }
    if here + 2 <= 524288 {
        Ok((spelled.0.mask, spelled.1))
    } else {
        Err(AsmFault::Range(line))
    }
}

/// The lines of block k.
#[tactic(auto, unfolding(target_asm_spec::specs::inside::Blocks::one_block))]
pub fn one_block<'a>(
    known: Known<'_>,
    k: usize,
    here: u32,
    line: u32,
    text: &'a [u8],
) -> Result<ReadBlock<'a>, AsmFault>
    requires line { line < 2 ^ 31 }
    requires here { here < 2 ^ 30 }
    ensures value { Returns (λ r. (r.block, r.line, r.rest.now)) result
        (one_block (seen known.entry) k here line text.now) }
    ensures lines { IfOk result (λ r. r.line ≤ line + 196) }
    ensures room { IfOk result (λ r. here + 2 ≤ most_chunks) }
    ensures short { IfOk result (λ r. length r.block.insts.items ≤ 128) }
{
    let head = match head(k, here, line, text) {
        Err(fault) => return Err(fault),
        Ok(head) => head,
    };
    let mut read_slots = ArrayVec::new();
    let after_reads = match reads(&mut read_slots, line + 1, head.1) {
        Err(fault) => return Err(fault),
        Ok(after) => after,
    };
    let mut write_slots = ArrayVec::new();
    let after_writes = match writes(&mut write_slots, after_reads.0, after_reads.1) {
        Err(fault) => return Err(fault),
        Ok(after) => after,
    };
    let mut insts = ArrayVec::new();
    match slots(&mut insts, known, here, after_writes.0, after_writes.1) {
        Err(fault) => Err(fault),
        Ok(after) => Ok(ReadBlock {
            block: Block {
                reads: read_slots,
                writes: write_slots,
                mask: head.0,
                insts,
            },
            line: after.0,
            rest: after.1,
        }),
    }
}
