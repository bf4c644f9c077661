//! What the program refuses, its words, and its files and sinks, as tests.
#![tactic(auto)]

#[cfg(test)]
mod explain_tests;
#[cfg(test)]
mod failing_tests;
#[cfg(test)]
mod front_tests;
#[cfg(test)]
mod larger_rows;
#[cfg(test)]
mod larger_tests;
#[cfg(test)]
mod number_tests;
#[cfg(test)]
mod option_tests;
#[cfg(test)]
mod report_tests;
