//! `eval` and `run` on texts of C, as tests.
#![tactic(auto)]

#[cfg(test)]
mod abort_tests;
#[cfg(test)]
mod bench_tests;
#[cfg(test)]
mod block_tests;
#[cfg(test)]
mod eval_tests;
#[cfg(test)]
mod json_tests;
#[cfg(test)]
mod larger_rows;
#[cfg(test)]
mod programs;
#[cfg(test)]
mod run_tests;
#[cfg(test)]
mod save_tests;
#[cfg(test)]
mod switch_rows;
#[cfg(test)]
mod switch_tests;
#[cfg(test)]
mod tables;
#[cfg(test)]
mod token_tests;
#[cfg(test)]
mod undefined_rows;
#[cfg(test)]
mod unroll_tests;
