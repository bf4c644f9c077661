//! Laws of the benchmark's text: it is accepted, and its evaluation ends.
//!
//! Nothing of this crate runs.
#![tactic(auto)]

mod law;

pub use law::{bench_ends, bench_is_accepted, bench_is_not_refused, bench_is_short};
