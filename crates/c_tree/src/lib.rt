//! Tokens, trees and typed trees of the C profile (docs/LANGUAGE.md), as plain data.
//!
//! Contracts see each of them whole: a [`Word`] is its list of bytes, an `Items` its list and a `Boxed`
//! what it holds. Offsets count the bytes of the text from 0. A negative value in a `u64` stands modulo 2^64.
#![tactic(auto)]

mod limits;
mod marks;
mod token;
mod tree;
mod typed;
mod word;

pub use limits::{
    MOST_FRAME_BYTES, MOST_NEED, MOST_NESTING, MOST_OBJECT_BYTES, MOST_PARAMETERS, MOST_SCALARS,
    MOST_SOURCE_BYTES, MOST_TOKENS, limits_are_the_profiles,
};
pub use marks::{MARKS, assigned_by, joined_by, marks_are_the_languages};
pub use token::{Form, Key, Kind, Lexeme, Mark};
pub use tree::{
    ArraySize, BinaryOp, BumpOp, Expr, ExprNode, ForInit, Label, Param, Program, Section, Stmt,
    StmtNode, Top, TopNode, UnaryOp,
};
pub use typed::{
    Callee, Place, Slot, TypedArray, TypedExpr, TypedForInit, TypedFunc, TypedGlobal, TypedNode,
    TypedProgram, TypedSection, TypedStmt,
};
pub use word::{Word, same_bytes};
