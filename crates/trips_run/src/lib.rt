//! What the program does: one request, from the words of the command line to the exit status.
//!
//! [`trips_run`] makes the whole report before it writes the first byte of it. Its contract says what the program
//! promises, of texts, images and the machine alone; that of [`answer_words`], the one call that it makes, names the
//! image that the compiler makes of a text, the grid that is run and the report of each refusal. [`trips_json`] does
//! the same, and writes the answer as JSON.
#![tactic(auto)]

mod answering;
mod command_line;
mod json;
mod top;

pub use answering::answer_words;
pub use json::trips_json;
pub use top::trips_run;
pub use trips_answers::{Status, exit_code};
pub use trips_json::said_json;
