//! Four programs on one grid against each alone, as tests: mixes of small programs of C, of which some end at once,
//! trap, fill their stack or run out of their budget.
#![tactic(auto)]

#[cfg(test)]
mod mix_tests;
#[cfg(test)]
mod running;
#[cfg(test)]
mod texts;
