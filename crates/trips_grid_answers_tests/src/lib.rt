//! Tests of runs in two parts: saved behind each block, resumed under another seed, and save files with one change;
//! of the events that are told of runs; and of runs in other weathers and with another predictor.
#![tactic(auto)]

#[cfg(test)]
mod again_tests;
#[cfg(test)]
mod changed_tests;
#[cfg(test)]
mod conditions_tests;
#[cfg(test)]
mod events_tests;
#[cfg(test)]
mod making;
#[cfg(test)]
mod two_part_tests;
