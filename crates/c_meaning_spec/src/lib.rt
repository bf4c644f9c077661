//! The meaning of a typed program (docs/LANGUAGE.md) as a definition: its evaluation on an input
//! with a stock of steps, `eval`, and the laws of it.
//!
//! The definitions stand in specs/, from `State`, which is what an evaluation goes over, to `Eval`,
//! the evaluation of a program. Nothing here runs: the types below are what the definitions and a
//! program that evaluates speak of together, and each law is the contract of a function.
#![tactic(auto)]

mod fault;
mod laws;
mod signal;

pub use fault::Fault;
pub use laws::{
    exits_as_main_returns, output_goes_on, places_are_told_where_it_stops,
    result_stays_with_more_steps, run_with_places_is_the_evaluation, steps_of_done_are_least,
    task_means_by_its_parts, task_tells_by_its_parts, undefined_has_its_reason,
};
pub use signal::{Ending, Halt, Object, Signal};
