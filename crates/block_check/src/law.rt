//! A law of the definitions alone: the function does nothing, and its clause is the law.
ghost use Rattle.std.specs.Prelude.{◌↔◌};
ghost use Rattle.trips_isa.specs.declared.block.Block.{Block};
ghost use Rattle.trips_isa.specs.Fits.{FitsBlock};
ghost use Rattle.block_cases.specs.Good.{GoodBlock};
ghost use Rattle.block_check.specs.Faults.{IsGood};

/// One good: a block that fits has no fault exactly where it is good by its cases, with an order
/// of its nodes along their edges. So what is known to be good passes the check.
pub fn one_good()
    ensures { (b : Block) → FitsBlock b → (IsGood b ↔ GoodBlock b) }
{}
