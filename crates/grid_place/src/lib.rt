//! Good blocks with their instructions in other slots.
#![tactic(auto)]

mod law;
mod node;
mod order;
mod placed;
mod placement;
mod rename;
mod shuffle;
mod slots;
mod tiles;

pub use law::{
    moved_blocks_mean_the_same, moved_blocks_stay_clean, moved_blocks_stay_good,
    seeds_give_permutations,
};
pub use placed::{Placing, place};
