//! From flat programs to programs of hyper blocks, for every plan: what the blocks are, and that they
//! do what the flat program does.
#![tactic(auto)]

mod building;
mod calling;
mod code;
mod counting;
mod emitting;
mod entries;
mod exits;
mod functions;
mod ground;
mod laws;
mod merging;
mod numbering;
mod operands;
mod plan;
mod posts;
mod rest;
mod singles;
mod straight;

pub use building::build;
pub use entries::function_entries;
pub use laws::{
    assigned_programs_keep_meaning, blocks_are_followed, built_programs_are_blocks,
    built_programs_keep_meaning, calls_follow, cut_blocks_are_little, emission_builds_programs,
    emission_puts_blocks, entries_begin_functions, plans_change_nothing, small_ifs_are_filled,
};
pub use merging::is_break;
pub use plan::{CutPlan, cut_all, is_cut, is_joined};
pub use straight::is_small_if;
