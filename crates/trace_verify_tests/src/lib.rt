//! Tests of traces: recorded runs of small images, and traces with one change, read in pieces of several sizes.
#![tactic(auto)]

#[cfg(test)]
mod by_hand;
#[cfg(test)]
mod byte_tests;
#[cfg(test)]
mod making;
#[cfg(test)]
mod reading;
#[cfg(test)]
mod record_tests;
#[cfg(test)]
mod verify_tests;
