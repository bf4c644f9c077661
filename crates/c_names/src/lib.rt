//! Names of types and of enumeration constants in the tokens of a unit (docs/LANGUAGE.md): each is replaced by what
//! it stands for, and its declaration goes, so that the grammar and all behind it know nothing of them.
#![tactic(auto)]

mod enums;
mod header;
mod piece;
mod scope;
mod turn;
mod typedef;
mod unit;
#[cfg(test)]
mod unit_tests;
mod value;
mod words;

pub use crate::unit::{has_no_name, named};
