//! Declarations of one object outside of functions (C17 6.9.2), as one, and values without designators and braces that
//! are not needed (6.7.9), so that the grammar and all behind it know each object by one declaration
//! (docs/LANGUAGE.md).
#![tactic(auto)]

mod braces;
mod completed;
mod cuts;
mod designators;
mod entries;
mod externs;
mod joined;
mod objects;
mod raised;
mod repeats;
mod same;
mod unit;
#[cfg(test)]
mod unit_tests;

pub use crate::unit::{is_settled, settled};
