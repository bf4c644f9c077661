//! Programs whose self loops do several turns in one block.
#![tactic(auto)]

mod copying;
mod holding;
mod laws;
mod loops;
mod turning;
mod unrolling;

pub use laws::{
    unrolled_loops_run_fewer, unrolled_programs_are_blocks, unrolled_programs_run, wholes_stand,
};
pub use loops::{Loop, loop_of};
pub use unrolling::{unroll, unrolled_block};
