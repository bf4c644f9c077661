//! The grid as a type of its own: it runs to its end within its cost, in any weather, and tells what it waits for
//! (docs/GRID.md, "The engine").
//!
//! specs/Engines.antt has how contracts see a [`Grid`] and what its run has cost, specs/Nexts.antt and
//! specs/Lacks.antt what it tells between cycles. `runs_from_the_start_end` and `runs_from_a_state_end` are the cycle
//! bound of the runs of a seed, over their definitions alone; specs/Traps.antt has the endings that are traps.
#![tactic(auto)]

mod conditions;
mod fetching;
mod firing;
mod grid;
mod law;
mod moving;
mod outcome;
mod seeded;
mod waiting;
mod weather;

pub use conditions::{Conditions, Exits, Holds, predictor_for, weather_for};
pub use frame_state::Lack;
pub use grid::Grid;
pub use law::{runs_from_a_state_end, runs_from_the_start_end};
pub use outcome::Ran;
pub use seeded::{resume_image, run_image};
pub use weather::AnyWeather;
