//! The tools on images, and what they are answered: a target text assembled, an image disassembled, and an image
//! checked. Each call makes the bytes to be written, or says why the file is refused. The crate stands over images,
//! target texts and the block checker alone.
//!
//! What is made of a file's bytes, and why they are refused, stands in specs/Tools, and what these bytes are answered
//! in specs/ToolAnswers.
#![tactic(auto)]

mod limits;
mod made;
mod tool_answers;
mod tools;

pub use limits::{MOST_IMAGE_BYTES, MOST_TARGET_BYTES, constants_are_the_definitions};
pub use made::Made;
pub use tool_answers::{refused, tool_done};
pub use tools::{assembled, checked, disassembled};
