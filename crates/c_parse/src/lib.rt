//! The parser of the C profile (C17 6.5 to 6.9): it accepts exactly the grammar of `c_grammar`, and
//! places each fault exactly.
#![tactic(auto)]

mod build;
mod expression;
mod fault;
mod function;
mod global;
mod held;
mod leaf;
mod local;
mod make;
mod parser;
mod primary;
mod statement;
mod switch;
mod types;
mod unit;

pub use unit::{ParseFault, parse};
