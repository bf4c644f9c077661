//! Records of runs of the grid: what is in flight, cycle for cycle, as bytes.
//!
//! specs/Moments.antt has the bytes of a grid between two cycles, specs/Records.antt what a record tells.
#![tactic(auto)]

mod frames;
mod moment;
mod numbers;
mod running;
mod slots;
mod tokens;

pub use running::{memory_of, record_image};
