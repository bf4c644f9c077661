//! Where branches go.
ghost use Rattle.std.specs.Prelude.{◌≡◌, ◌+ℤ◌, ◌-ℤ◌, pos};
ghost use Rattle.target_asm_spec.specs.inside.Chunks.{goal_in};
ghost use Rattle.target_asm_spec.specs.Judging.{signed_in};
ghost use Rattle.target_asm_spec.specs.inside.Blocks.{to_block, aimed_at, aimed};
ghost use Rattle.target_asm.specs.inside.Taking.{Returns, seen};
ghost use Rattle.trips_isa.specs.Limits.{offset_half};

use crate::tables::goal;
use target_asm_spec::AsmFault;
use target_asm_spec::spelled::Goal;

/// Where blocks begin, where it is known: the chunk of each block, and for each chunk 1 more than the
/// block that begins there, or 0.
#[derive(Clone, Copy)]
pub struct Known<'a> {
    pub known: bool,
    pub chunks: &'a [u32],
    pub starts: &'a [u32],
}

/// The offset from one chunk to another, where it lies in its field.
#[tactic(auto, unfolding(target_asm_spec::specs::Judging::signed_in))]
fn between(here: u32, there: u32) -> Option<i32>
    ensures value { result ≡ signed_in offset_half (pos there -ℤ pos here) }
{
    let offset = there as i64 - here as i64;
    if -524288 <= offset && offset < 524288 {
        Some(offset as i32)
    } else {
        None
    }
}

fn chunk_offset(chunks: &[u32], here: u32, line: u32, k: usize) -> Result<i32, AsmFault>
    ensures { Returns (λ x. x) result (to_block chunks.now here line (pos k)) }
{
    if chunks.len() <= k {
        return Err(AsmFault::Label(line));
    }
    match between(here, chunks[k]) {
        None => Err(AsmFault::Label(line)),
        Some(offset) => Ok(offset),
    }
}

/// The offset to a block by its number.
fn to_block(chunks: &[u32], here: u32, line: u32, k: i32) -> Result<i32, AsmFault>
    ensures { Returns (λ x. x) result (to_block chunks.now here line k) }
{
    if k < 0 {
        Err(AsmFault::Label(line))
    } else {
        chunk_offset(chunks, here, line, k as usize)
    }
}

#[tactic(auto, unfolding(target_asm_spec::specs::inside::Blocks::aimed_at))]
fn aimed_at(
    known: Known<'_>,
    here: u32,
    line: u32,
    target: Option<Goal>,
    imm: i32,
) -> Result<i32, AsmFault>
    ensures { Returns (λ x. x) result (aimed_at (seen known.entry) here line target imm) }
{
    match target {
        None => Ok(imm),
        Some(Goal::Label(k)) => to_block(known.chunks, here, line, k),
        Some(Goal::Offset(n)) => match goal(known.starts, here, n) {
            Some(_) => Err(AsmFault::Range(line)),
            None => Ok(imm),
        },
    }
}

/// The offset of a branch from a block that begins at `here`. It is left where blocks are not known.
#[tactic(auto, unfolding(target_asm_spec::specs::inside::Blocks::aimed))]
pub fn aimed(
    known: Known<'_>,
    here: u32,
    line: u32,
    target: Option<Goal>,
    imm: i32,
) -> Result<i32, AsmFault>
    ensures { Returns (λ x. x) result (aimed (seen known.entry) here line target imm) }
{
    if known.known {
        aimed_at(known, here, line, target, imm)
    } else {
        Ok(imm)
    }
}
