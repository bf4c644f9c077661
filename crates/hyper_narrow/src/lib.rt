//! Hyper blocks that write only the registers that outlast them.
//!
//! A hyper block sets registers that it alone reads. A narrowed block ([`NarrowedBlock`]) says which
//! registers outlast it; all others hold after it what they held before it.
#![tactic(auto)]

mod lasting;
mod laws;
mod narrowed;
mod whole;

pub use lasting::outlasts;
pub use laws::{narrowed_blocks_keep_words, whole_blocks_mean_the_same, whole_programs_run_so};
pub use narrowed::{Lasting, NarrowedBlock, NarrowedProgram};
pub use whole::whole_program;
