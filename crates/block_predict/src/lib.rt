//! The next-block predictor of the grid.
//!
//! A table of exits is looked up by a block and the history of exits. The branch of the block that has
//! the named exit, or else its lowest branch, says which block is predicted; calls and returns go over
//! a return stack of sixteen block numbers. Whatever the table holds, a predicted block is in the image.
#![tactic(auto)]

mod branches;
mod predictor;
mod table;
#[cfg(test)]
mod tests;

pub use predictor::{Predictor, entered};
