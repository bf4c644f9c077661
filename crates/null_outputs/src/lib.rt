//! Null tokens on the paths that leave a write or a store number untaken.
#![tactic(auto)]

mod assembly;
mod closing;
mod completion;
mod cover;
mod emission;
mod ends;
mod filling;
mod groups;
mod laws;
mod layout;
mod lists;
mod numbers;
mod places;
mod regions;
mod stores;
mod straight;
mod supplied;
mod surely;
mod wanting;

pub use completion::complete;
pub use laws::{
    completed_blocks_are_complete, completing_keeps_meaning, completing_keeps_regular,
    completing_keeps_tables, completing_reads_no_immediate, firm_blocks_grow_little,
    nodes_are_counted, straight_blocks_stay, sureness_is_recognised,
};
pub use places::{Guess, Region, Starts};
