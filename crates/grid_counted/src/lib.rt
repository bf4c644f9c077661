//! Runs of the grid that are counted: to their end, by cycles of `grid_tallies`.
//!
//! specs/Runs.antt has runs with all that is noted of them, specs/Seeds.antt what a run is answered with its
//! statistics. A run that is counted is a run as any other, and each run has notes (`runs_have_notes`).
#![tactic(auto)]

mod counted;
mod law;
mod running;
mod seeded;

pub use counted::Counted;
pub use law::{
    flights_are_cycles, flushes_have_causes, frames_add_up, noted_runs_are_runs, runs_have_notes,
};
pub use running::run;
pub use seeded::{resume_image, run_image};
