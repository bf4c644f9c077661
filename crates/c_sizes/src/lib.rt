//! The sizes of objects and values (C17 6.5.3.4) as tokens, so that the grammar and all behind it know nothing of
//! `sizeof` (docs/LANGUAGE.md).
#![tactic(auto)]

mod behind;
mod cut;
mod index;
mod known;
mod mark;
mod nest;
mod object;
mod operand;
mod operator;
mod outcome;
mod shape;
mod size;
mod unit;
#[cfg(test)]
mod unit_tests;
mod value;
mod walk;
mod width;

pub use crate::unit::{is_sized, sized};
