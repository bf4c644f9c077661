//! The reports of a run and of the refusals of images and target texts, each made whole before its
//! first byte is written.
//!
//! The texts stand in `specs/`: `Runs`, `Commits` and `Refusals`; `Endings` has the status of each ending.
#![tactic(auto)]

mod commits;
mod endings;
mod law;
mod lines;
mod measured;
mod refusals;
mod runs;
mod said;
mod show;

pub use endings::status_for;
pub use law::commits_add_up;
pub use measured::{Measured, Statistics};
pub use refusals::{at_place, refusal_report};
pub use runs::run_report;
pub use said::Said;
pub use show::Show;
