//! The blocks that the compiler's passes make of a narrowed program, up to the joint with the layout: the passes
//! composed, and the laws of what they make. The other modules have laws alone: of blocks that the passes made and
//! the checker took, whatever the number of their cases, and that the blocks of a plan which cuts everywhere are
//! within the limits of the machine.
//!
//! The passes stand in specs/inside/Blocks, specs/inside/Passing and specs/inside/Refusals, guarded nodes in
//! specs/inside/Guarded, checked blocks in specs/inside/Checked, the laws in specs/Laws and specs/inside/Limits, and
//! what a block costs at most in specs/inside/Costs, specs/inside/Prices and specs/inside/Choosers.
#![tactic(auto)]

mod blocks;
mod filled;
mod law;
mod laws;
mod limit_laws;

pub use blocks::{machine_block, machine_blocks};
pub use law::checked_images_are_of_machine_blocks;
pub use laws::{machine_blocks_are_emitted, placed_blocks_use_slots};
pub use limit_laws::{
    cases_are_few, cut_programs_fit, little_blocks_fit, only_memory_refuses, small_blocks_fit,
    small_ifs_fit,
};
