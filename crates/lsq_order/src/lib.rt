//! The order of loads and stores: which bytes a load takes of the stores of a frame, which answered loads a store
//! makes wrong, and which loads wait.
#![tactic(auto)]

mod masks;
mod reach;
mod sought;
#[cfg(test)]
mod tests;
mod waiters;

pub use masks::{end_below, next_from};
pub use reach::Reach;
pub use sought::Sought;
pub use waiters::Waiters;
