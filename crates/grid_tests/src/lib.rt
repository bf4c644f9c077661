//! Tests of the grid over the window in code, on images of a few small blocks: runs of a seed, runs in calm weather
//! and in the worst with cycles that were counted by hand, and what a grid tells between cycles.
#![tactic(auto)]

#[cfg(test)]
mod asked_tests;
#[cfg(test)]
mod guess_tests;
#[cfg(test)]
mod making;
#[cfg(test)]
mod observer_tests;
#[cfg(test)]
mod run_tests;
#[cfg(test)]
mod running;
#[cfg(test)]
mod runs;
#[cfg(test)]
mod time_tests;
