//! What is told of how the evaluation of a text of C ended: done, or where it stopped, with the line of the text, the
//! calls that were open and the output so far.
//!
//! specs/Endings says what is told; specs/Definitions where the functions of a text are defined.
#![tactic(auto)]

mod calls;
mod definitions;
#[cfg(test)]
mod ending_tests;
mod endings;
mod places;

pub use definitions::definitions_of;
pub use endings::{done_text, halted_text, not_done_text, too_deep_text, undefined_text};
