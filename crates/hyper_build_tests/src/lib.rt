//! Flat programs as hyper programs, under several plans: where their blocks lead, and what they do when
//! they are run block by block.
#![tactic(auto)]

#[cfg(test)]
mod build_tests;
#[cfg(test)]
mod ending_tests;
#[cfg(test)]
mod machine;
#[cfg(test)]
mod making;
#[cfg(test)]
mod memory;
#[cfg(test)]
mod run_tests;
#[cfg(test)]
mod running;
#[cfg(test)]
mod texts;
