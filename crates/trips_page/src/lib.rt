//! The command and the grid for a page in a browser. Each export is a function of the bytes that it is handed, and
//! keeps nothing between calls: the host passes a place and a length for each text, and room for what is answered.
//!
//! Nine exports are commands (`src/commands`). What one answers is the number of a status and behind it the report:
//! a row of the command's own table for its request (specs/Told.antt), over files in memory that never fail. Two tell
//! a run cycle for cycle (`src/recording`, specs/Recorded.antt).
#![tactic(auto)]

mod answering;
mod commands;
mod recording;
#[cfg(test)]
mod tests;

pub use commands::{
    page_assemble, page_check, page_compile, page_disassemble, page_evaluate, page_explain,
    page_explain_target, page_run, page_run_image,
};
pub use recording::{page_memory, page_record};
