//! The whole-number operations of C17, and what stands on them alone: constant expressions and need.
//!
//! A word is the number modulo 2^64, the same at each type that holds the number.
#![tactic(auto)]

mod causes;
mod constants;
mod kinds;
mod needs;
mod signed;
mod unsigned;
mod words;

pub use causes::{Cause, cause_of};
pub use constants::{Constant, constant_of};
pub use kinds::{
    KindRow, bytes, common, left_at, promoted, result_of, right_at, row, unary_at, unary_result,
    width,
};
pub use needs::need_fits;
pub use words::{convert, operation, unary};
