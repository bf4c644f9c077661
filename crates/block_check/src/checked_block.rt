ghost use Rattle.std.specs.Prelude.{◌≡◌, ◌↔◌, IsOk, IfOk, IfErr};
ghost use Rattle.trips_isa.specs.Fits.{FitsBlock};
ghost use Rattle.block_cases.specs.Good.{GoodBlock};
ghost use Rattle.block_check.specs.Faults.{IsGood, IsLowestFault};
ghost use Rattle.block_check.specs.inside.IsChecked.{IsChecked, KeepsOneTokenFromEntry};

use crate::fault::CheckFault;
use crate::verdict::judge_block;
use std::marker::Model;
use trips_isa::Block;

/// A block that fits and is good, seen as the block.
#[derive(Debug, Drop)]
pub struct CheckedBlock {
    block: Block,
}

impl Model for CheckedBlock {
    ghost use Rattle.trips_isa.specs.declared.block.Block.{Block};
    ghost use Rattle.block_check.specs.inside.IsChecked.{IsChecked};

    ghost Value = { Block };

    ghost view = { λ c. c.block };

    ghost invariant = { λ c. IsChecked c.block };
}

impl CheckedBlock {
    /// The block itself.
    pub fn block(&self) -> &Block
        ensures value { result.now ≡ self.now }
        ensures checked { IsChecked self.now }
    {
        &self.block
    }
}

/// Checks a block. A block with a fault is handed back unchanged.
pub fn check(block: Block) -> Result<CheckedBlock, (Block, CheckFault)>
    requires fits { FitsBlock block }
    ensures ok { IsOk result ↔ IsGood block }
    ensures good { IsOk result ↔ GoodBlock block }
    ensures same { IfOk result (λ c. c ≡ block) }
    ensures checked { IfOk result (λ c. IsChecked block) }
    ensures one_token { IfOk result (λ c. KeepsOneTokenFromEntry block) }
    ensures back { IfErr result (λ e. e.0 ≡ block) }
    ensures fault { IfErr result (λ e. IsLowestFault block e.1) }
{
    match judge_block(&block) {
        Ok(()) => Ok(CheckedBlock { block }),
        Err(fault) => Err((block, fault)),
    }
}
