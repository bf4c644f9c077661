//! The six parts of a cycle of the grid, over any window (docs/GRID.md, "A cycle"), and the state that they work on.
//!
//! `Windows` is what the grid asks of a window of frames in flight: each event is one equation with the definitions
//! of `commit_flush_spec`. `State` is what is under way beside the window: parcels, units, requests at data tiles,
//! the fetch unit, the predictor, waiting bits and counts. A `Grid` is both; `seen` (specs/Seen.antt) leads from them
//! to the grid of `grid_cycle_spec`, and each call is one change of it (specs/inside/Changes.antt).
//!
//! specs/inside/Choices.antt has what stations may take of a window, specs/inside/EldestChoices.antt the eldest of
//! it, specs/inside/Marked.antt the marks that save looking.
#![tactic(auto)]

mod arriving;
mod banks;
mod bits;
mod busy_units;
mod counting;
mod data_tiles;
mod ends;
mod fetch_unit;
mod fetches;
mod fetching;
mod flushes;
mod flushing;
mod frame_flags;
mod grid;
mod histories;
mod parcels;
mod read_marks;
mod requests;
mod requests_waiting;
mod sending;
mod slots;
mod slots_ready;
mod state;
mod units;
mod windows;

pub use arriving::{arrivals, place_arrives};
pub use fetch_unit::FetchUnit;
pub use frame_flags::FrameFlags;
pub use grid::Grid;
pub use histories::Histories;
pub use read_marks::{ReadMarks, marked_reads, readable_among};
pub use requests_waiting::{answerable, any_asked};
pub use sending::{enter_both, enter_request};
pub use slots::lowest_on;
pub use slots_ready::{marked_slots, ready_slot};
pub use state::State;
pub use windows::{Request, Windows};
