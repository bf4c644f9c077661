//! The answers to requests: a status, and the report that is written.
//!
//! [`answer_to`] answers any request. Which answers hold is one relation that has a row for each
//! command (`specs/Answer.antt`), and what is written is a table by status over it
//! (`specs/Table.antt`).
#![tactic(auto)]

mod asked_answer;
mod drawn_answer;
mod forms;
mod four_programs;
mod further;
mod gridded;
mod image_answer;
mod law;
mod loading;
mod saved_answer;
mod text_answer;
mod trap_answer;

pub use asked_answer::answer_to;
pub use law::reports_tell_evaluations;
pub use loading::{MOST_INPUT_BYTES, constants_are_the_definitions};
pub use trips_requests::{Answer, Status, exit_code};
