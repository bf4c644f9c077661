//! Four programs on one grid, as definitions: the machine, its cycle part by part, and the laws that stand on no
//! bound: the program which comes first sees each part of a cycle as a grid of its own makes it, and each program's
//! committed state is the one that it has alone.
//!
//! specs/Programs.antt has the machine: what each program has of its own, and what all share. One program alone is
//! seen as a grid of `grid_cycle_spec`, so each station's turn is that grid's own (specs/Turns.antt,
//! specs/Parts.antt).
#![tactic(auto)]

mod law;

pub use law::{
    first_programs_are_alone, own_turns_are_alike, programs_run_as_alone,
    programs_take_their_own_steps,
};
