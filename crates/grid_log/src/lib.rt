//! The events of a run of the grid: a cycle that keeps what it does in a log.
//!
//! A cycle that is logged is made of the pieces of `grid_parts`, as any cycle is, and tells between them; so a run
//! that is not logged pays nothing. specs/Events.antt has which events stand for which notes of crates/grid_events,
//! specs/Logs.antt what a log keeps of them, specs/Cycles.antt and specs/Runs.antt cycles that are logged.
#![tactic(auto)]

mod arriving;
mod banks;
mod cycling;
mod data_tiles;
mod ends;
mod event;
mod fetches;
mod flushes;
mod law;
mod log;
mod running;
mod units;
mod watched;
mod watching;

pub use cycling::cycle;
pub use event::{Cause, Event};
pub use law::{entries_stand_for_notes, logged_cycles_are_eager};
pub use log::{Entry, Log};
pub use running::{close, cycles, cycles_behind, pass};
pub use watched::Watched;
