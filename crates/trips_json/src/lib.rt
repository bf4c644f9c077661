//! The answers of `trips` as JSON: [`json_report`] makes one object of a status and a report (`json_text` of
//! `specs/Objects`), [`write_json`] writes it, and [`said_json`] finds the word that asks for it.
#![tactic(auto)]

mod law;
mod lines;
mod numbers;
#[cfg(test)]
mod object_tests;
mod objects;
mod strings;
mod texts;
mod words;
mod writing;

pub use law::{outputs_are_told, strings_are_read_back};
pub use objects::json_report;
pub use words::{has_output, said_json};
pub use writing::write_json;
