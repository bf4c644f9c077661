//! Statistics of a run of the grid: a cycle that counts what it does.
//!
//! A counting cycle is made of the pieces of `grid_parts`, as any cycle is, and counts between them; so a run that is
//! not counted pays nothing. specs/Statistics.antt has what a note counts for, of the notes of crates/grid_events,
//! specs/Predictions.antt how right predictions are counted; specs/Counters.antt both together, and specs/Cycles.antt
//! cycles that are counted.
#![tactic(auto)]

mod arriving;
mod banks;
mod counters;
mod cycling;
mod data_tiles;
mod ends;
mod entering;
mod fetches;
mod flights;
mod guess_table;
mod law;
mod leading;
mod running;
mod statistic;
mod tallies;
mod travelling;
mod units;

pub use counters::Counters;
pub use cycling::cycle;
pub use fetches::{fetch_of, filled, guesses, may_fill, open_youngest};
pub use flights::Flights;
pub use guess_table::Guesses;
pub use law::{counted_cycles_are_eager, mesh_statistics_are_its_notes, statistics_add_up};
pub use leading::{Leading, leads_in};
pub use running::{close, cycles};
pub use statistic::Statistic;
pub use tallies::Tallies;
