//! Plans that put as much into each block as it has room for.
//!
//! `specs/inside/Answers.antt` says what is known of every plan. How well it is chosen is a matter of speed alone:
//! the program of a flat program means the same for every plan.
#![tactic(auto)]

mod calls;
mod estimate;
#[cfg(test)]
mod estimate_tests;
mod if_items;
mod items;
mod legs;
mod open_block;
mod operations;
mod plans;
mod producers;
mod walk;

pub use plans::greedy;
