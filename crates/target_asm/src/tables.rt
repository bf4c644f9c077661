//! Tables of the places where blocks begin.
ghost use Rattle.std.specs.Prelude.{◌≡◌, ◌≤◌, ◌<◌, ◌^◌, ◌++◌, ◌+ℤ◌, pos, length, All, IfOk, OnOk};
ghost use Rattle.target_asm_spec.specs.inside.Chunks.{start_row, start_rows, goal_in, named};
ghost use Rattle.target_asm_spec.specs.inside.Whole.{chunks_from};

use std::alloc::{AllocError, Global};
use trips_isa::{Block, chunks};

/// Appends the chunks of one block: its number and 1 more, and then zeros.
fn push_start(starts: &mut Vec<u32>, number: u32, chunks: u32) -> Result<(), AllocError>
    requires some { 1 ≤ chunks }
    requires number { number < 4294967295 }
    ensures ok { OnOk result (starts.new.items ≡ starts.old.items ++ start_row number chunks) }
{
    starts.push(number + 1)?;
    for _ in 1..chunks {
        starts.push(0)?;
    }
    Ok(())
}

/// For each chunk 1 more than the block that begins there, or 0.
pub fn starts(alloc: Global, blocks: &[Block]) -> Result<Vec<u32>, AllocError>
    requires short { All (λ b. length b.insts.items ≤ 128) blocks.now }
    requires few { length blocks.now < 2 ^ 32 }
    ensures ok { IfOk result (λ starts. starts.items ≡ start_rows 0 blocks.now) }
{
    let mut starts = Vec::new(alloc);
    for (k, block) in blocks.iter().enumerate() {
        push_start(&mut starts, k as u32, chunks(block))?;
    }
    Ok(starts)
}

/// The chunk at which each block begins.
pub fn chunk_list(alloc: Global, blocks: &[Block]) -> Result<Vec<u32>, AllocError>
    requires short { All (λ b. length b.insts.items ≤ 128) blocks.now }
    requires few { length blocks.now ≤ 262145 }
    ensures ok { IfOk result (λ list. list.items ≡ chunks_from 0 blocks.now) }
{
    let mut list = Vec::new(alloc);
    let mut here: u32 = 0;
    for (k, block) in blocks.iter().enumerate() {
        list.push(here)?;
        here += chunks(block);
    }
    Ok(list)
}

fn named(number: u32) -> Option<u32>
    ensures value { result ≡ named number }
{
    if number == 0 { None } else { Some(number - 1) }
}

/// The block that begins at a chunk and an offset from it, by the table.
pub fn goal(starts: &[u32], here: u32, offset: i32) -> Option<u32>
    ensures value { result ≡ goal_in starts.now (pos here +ℤ offset) }
{
    let at = here as i64 + offset as i64;
    if at < 0 || at as usize >= starts.len() {
        return None;
    }
    named(starts[at as usize])
}
