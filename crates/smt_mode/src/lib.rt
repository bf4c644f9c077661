//! Four programs on one grid (docs/FOUR.md): made from four images and inputs, moved cycle by cycle, and run to the
//! end of all four.
//!
//! A program is a grid of its own (`Program`), whose turns at the stations are those of `grid_parts`. A `Machine` has
//! four of them, and what they share: units, weather and the count of cycles. `four_of` (specs/Machines.antt) leads
//! from it to the machine of `smt_spec`, and each call is one change of that. `Four` keeps a machine that has come
//! from a stated start by eager cycles.
#![tactic(auto)]

mod banks;
mod cycling;
mod data_tiles;
mod ends;
mod fetches;
mod four;
mod machine;
mod made;
mod network;
mod programs;
mod running;
mod turns;
mod units;

pub use four::{Four, Started};
