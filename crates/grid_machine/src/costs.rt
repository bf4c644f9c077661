//! What a trace may cost.
ghost use Rattle.std.specs.Prelude.{◌≡◌, ◌<◌, ◌≤◌, ◌+◌, ◌*◌, ◌^◌, ◌∷◌, List, Option, length, slice_get};
ghost use Rattle.trips_isa.specs.declared.block.Inst as instruction;
ghost use Rattle.trips_isa.specs.Fits.{FitsBlock};
ghost use Rattle.grid_cycle_spec.specs.Costs as spec;
ghost use Rattle.grid_cycle_spec.specs.Costs.{greatest_cost};

use block_check::CheckedImage;
use trips_isa::{Block, Inst, Traced};

// One for an instruction, none for an empty slot.
fn one_in(slot: Option<Inst>) -> u64
    ensures value { (slots : List (Option instruction.Inst))
        → spec.instructions (slot ∷ slots) ≡ result + spec.instructions slots }
    ensures few { result ≤ 1 }
{
    match slot {
        Some(_) => 1,
        None => 0,
    }
}

// The instructions among the slots of a block.
fn instructions(slots: &[Option<Inst>]) -> u64
    requires { length slots.now ≤ 128 }
    ensures value { result ≡ spec.instructions slots.now }
    ensures few { result ≤ 128 }
{
    let mut count: u64 = 0;
    for i in 0..slots.len() {
        count += one_in(slots[i]);
    }
    count
}

// The cost of a block.
fn cost_of_block(block: &Block) -> u64
    requires { FitsBlock block.now }
    ensures value { result ≡ spec.cost block.now }
    ensures most { result ≤ greatest_cost }
{
    512 + 256 * (instructions(block.insts.as_slice()) + block.reads.len() as u64)
}

// The cost of the block of a number, and none where there is no such block.
fn cost_at(image: &CheckedImage, number: u32) -> u64
    ensures value { result ≡ spec.cost_in (slice_get image.now.blocks number) }
    ensures most { result ≤ greatest_cost }
{
    if number < image.count() {
        cost_of_block(image.at(number).block())
    } else {
        0
    }
}

/// The cost of a trace, in cycles: the sum over its blocks of 512 and, for each instruction and each read, 256.
pub fn cost(image: &CheckedImage, trace: &[Traced]) -> u64
    requires { length trace.now < 2 ^ 32 }
    ensures { result ≡ spec.cost_of image.now.blocks trace.now }
{
    let mut total: u64 = 0;
    for i in 0..trace.len() {
        total += cost_at(image, trace[i].block);
    }
    total
}
