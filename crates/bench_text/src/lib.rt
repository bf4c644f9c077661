//! The C text of the benchmark: so many functions over an array, and a main that calls one after the other.
//!
//! README.md shows the text. It is the same for every call with the same number of functions.
#![tactic(auto)]

mod generator;
mod parts;
#[cfg(test)]
mod tests;

pub use generator::bench_text;
