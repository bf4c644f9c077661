//! What the evaluation of a text of C is answered. It stands over the front end and the evaluator alone.
//! `specs/Evaluation` says what a text is answered.
#![tactic(auto)]

mod evaluation;
mod faults;
mod refusals;
#[cfg(test)]
mod report_tests;
mod reports;
mod stops;

pub use evaluation::text_evaluated;
pub use faults::sentence;
pub use refusals::stage_refused;
pub use reports::eval_report;
