//! Blocks placed on the grid.
ghost use Rattle.std.specs.Prelude.{◌≡◌, List, ℕ, IfOk, length};
ghost use Rattle.trips_isa.specs.declared.block.Block.{Block};
ghost use Rattle.trips_isa.specs.Fits.{FitsBlock};
ghost use Rattle.trips_isa.specs.Tables.{deepest};
ghost use Rattle.trips_isa.specs.Blocks.{token_of};
ghost use Rattle.trips_isa.specs.inside.Acts.{IsClean};
ghost use Rattle.trips_isa.specs.Outcomes.{plain};
ghost use Rattle.block_cases.specs.Good.{GoodBlock};
ghost use Rattle.grid_place.specs.Moves.{IsPermutation, goes};
ghost use Rattle.grid_place.specs.inside.Moves.{HasSizes, IsMoved};
ghost use Rattle.grid_place.specs.Placings.{IsPlacing};
ghost use Rattle.grid_place.specs.inside.Placings.{IsPlaced};

use crate::{placement, shuffle, slots};
use arrayvec::ArrayVec;
use base::Memory;
use std::alloc::Global;
use trips_isa::Block;

/// How the slots of a block are permuted.
#[derive(Clone, Copy, Debug, PartialEq, Eq)]
pub enum Placing {
    /// Each instruction on the tile on which it is expected to be done first.
    Greedy,
    /// By the shuffle of a seed.
    Seeded(u64),
}

fn moved(block: &Block, to: &[u8]) -> Block
    requires sizes { HasSizes block.now }
    requires permutes { IsPermutation to.now }
    ensures moved { IsMoved (goes to.now) block.now result }
{
    let mut reads = ArrayVec::new();
    slots::reads(&mut reads, to, block.reads.as_slice());
    let mut writes = ArrayVec::new();
    slots::writes(&mut writes, block.writes.as_slice());
    let mut insts = slots::empty();
    slots::put(insts.as_mut_slice(), to, block.insts.as_slice());
    Block {
        reads,
        writes,
        mask: block.mask,
        insts,
    }
}

// Where each slot of a block goes.
fn permute(to: &mut [u8], block: &Block, placing: Placing)
    requires { length to.old ≡ 128 }
    ensures placing { IsPlacing placing to.new }
    ensures permutes { IsPermutation to.new }
{
    match placing {
        Placing::Greedy => placement::greedy(to, block),
        Placing::Seeded(seed) => shuffle::seeded(to, seed),
    }
}

/// The block with its slots permuted, every target renamed with them. No memory is taken.
///
/// Nothing is asked of its fields: a block whose immediates hold labels is placed too. What is said
/// of its meaning then holds once the immediates fit, by the laws of src/law.rt.
pub fn place(_alloc: Global, block: &Block, placing: Placing) -> Result<Block, Memory>
    requires { HasSizes block.now }
    ensures placed { IfOk result (λ c. IsPlaced placing block.now c) }
    ensures meaning { IfOk result (λ c. FitsBlock block.now → GoodBlock block.now
        → (blocks : List Block) (k : ℕ) (regs mem : List ℕ)
        → plain blocks k c regs mem ≡ plain blocks k block.now regs mem) }
    ensures clean { IfOk result (λ c. FitsBlock block.now → GoodBlock block.now
        → (regs mem : List ℕ) → IsClean block.now (token_of block.now regs mem deepest)
        → IsClean c (token_of c regs mem deepest)) }
    ensures fits { IfOk result (λ c. FitsBlock block.now → FitsBlock c) }
    ensures good { IfOk result (λ c. FitsBlock block.now → GoodBlock block.now → GoodBlock c) }
{
    let mut to = [0u8; 128];
    permute(&mut to, block, placing);
    Ok(moved(block, &to))
}
