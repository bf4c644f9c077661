//! From typed C programs to the flat form.
//!
//! [`lower`] gives the flat program that specs/inside/Statements.antt defines. Each emitter adds
//! the code of one kind of node to what stands already.
#![tactic(auto)]

mod addressing;
mod around;
mod assignments;
mod bumping;
mod calling;
mod emit;
mod expressions;
mod functions;
mod globals;
mod held;
mod labels;
mod looping;
mod lowering;
mod names;
mod operations;
mod places;
mod plain;
mod powers;
mod results;
mod side;
mod sides;
mod statements;
mod switching;

pub use lowering::lower;
