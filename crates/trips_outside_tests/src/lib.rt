//! Files and sinks in memory and real, as tests.
#![tactic(auto)]

#[cfg(test)]
mod outside_tests;
