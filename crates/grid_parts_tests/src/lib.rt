//! Tests of the grid's state under single calls, through units, requests, fetches and parcels, and of the predictor
//! over a small image.
#![tactic(auto)]

#[cfg(test)]
mod making;
#[cfg(test)]
mod predict_tests;
#[cfg(test)]
mod state_tests;
