//! The lines that tell the events of a run.
//!
//! specs/Lines.antt has the line of an entry of a log of crates/grid_log.
#![tactic(auto)]

mod lines;
mod words;

pub use lines::{put_line, put_lines};
