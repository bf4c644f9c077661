//! Runs of the grid of which events are logged: to their end, by cycles of `grid_log` from one cycle to another, and
//! by cycles as any before and behind these.
//!
//! specs/Runs.antt has which entries of a run are kept, specs/Seeds.antt what a run is answered with its
//! log. A run that is logged is a run as any other.
#![tactic(auto)]

mod logged;
mod running;
mod seeded;

pub use logged::Logged;
pub use running::run;
pub use seeded::{resume_image, run_image};
