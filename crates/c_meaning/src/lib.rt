//! The evaluation of typed programs (docs/LANGUAGE.md), exactly as the definition `eval` of
//! `c_meaning_spec` has it.
#![tactic(auto)]

mod after;
mod arguments;
mod arrays;
mod bumps;
mod call;
mod calls;
mod compare;
mod direct;
mod evaluation;
mod faults;
mod few;
mod frame;
mod held;
mod host;
mod ints;
mod kept;
mod loops;
mod machine;
mod marks;
mod operations;
mod outcome;
mod resume;
mod runs;
mod scalars;
mod store;
mod stores;
mod streams;
mod two_indexes;
mod values;
mod words;

pub use evaluation::evaluate;
pub use outcome::{Bytes, Outcome};
