//! Small blocks and images, as texts, with the answers of the checker and of placing.
#![tactic(auto)]

#[cfg(test)]
mod check_tests;
#[cfg(test)]
mod making;
#[cfg(test)]
mod place_tests;
#[cfg(test)]
mod rows;
#[cfg(test)]
mod target_tests;
