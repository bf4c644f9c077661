//! What the images of texts hold, and how compiled programs run on the grid in the slowest weather, with a predictor
//! that is no help: all as tests.
#![tactic(auto)]

#[cfg(test)]
mod image_tests;
#[cfg(test)]
mod predictors;
#[cfg(test)]
mod room_tests;
#[cfg(test)]
mod text_tests;
#[cfg(test)]
mod worst_tests;
