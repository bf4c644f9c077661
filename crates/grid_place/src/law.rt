//! Laws of moved blocks, over their definitions alone; each function's clause is the law.
ghost use Rattle.std.specs.Prelude.{◌≡◌, ℕ, List};
ghost use Rattle.trips_isa.specs.declared.block.Block.{Block};
ghost use Rattle.trips_isa.specs.Fits.{FitsBlock};
ghost use Rattle.trips_isa.specs.Tables.{deepest};
ghost use Rattle.trips_isa.specs.Blocks.{token_of};
ghost use Rattle.trips_isa.specs.inside.Acts.{IsClean};
ghost use Rattle.trips_isa.specs.Outcomes.{plain};
ghost use Rattle.block_cases.specs.Good.{GoodBlock};
ghost use Rattle.grid_place.specs.Moves.{Permutes, IsPermutation};
ghost use Rattle.grid_place.specs.inside.Moves.{IsMoved};
ghost use Rattle.grid_place.specs.Seeded.{seeded};

/// A good block means the same in every state, whatever permutation of its slots it is placed by.
pub fn moved_blocks_mean_the_same()
    ensures { (b c : Block) (p q : ℕ → ℕ) → FitsBlock b → GoodBlock b → Permutes p q
        → IsMoved p b c → (blocks : List Block) (k : ℕ) (regs mem : List ℕ)
        → plain blocks k c regs mem ≡ plain blocks k b regs mem }
{}

/// A run of a good block in which nothing faults stays so.
pub fn moved_blocks_stay_clean()
    ensures { (b c : Block) (p q : ℕ → ℕ) → FitsBlock b → GoodBlock b → Permutes p q
        → IsMoved p b c → (regs mem : List ℕ) → IsClean b (token_of b regs mem deepest)
        → IsClean c (token_of c regs mem deepest) }
{}

/// A block still fits, and a good block is still good.
pub fn moved_blocks_stay_good()
    ensures fits { (b c : Block) (p q : ℕ → ℕ) → FitsBlock b → Permutes p q → IsMoved p b c
        → FitsBlock c }
    ensures good { (b c : Block) (p q : ℕ → ℕ) → FitsBlock b → GoodBlock b → Permutes p q
        → IsMoved p b c → GoodBlock c }
{}

/// The list of each seed is a permutation of the slots.
pub fn seeds_give_permutations()
    ensures { (seed : ℕ) → IsPermutation (seeded seed) }
{}
