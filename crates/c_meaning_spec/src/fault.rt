use c_constant::Cause;
use c_tree::{BinaryOp, Kind, UnaryOp};

/// Why an evaluation is undefined: the rule of C17 that it breaks, and its numbers. A word is told with its kind.
#[derive(Clone, Copy, Debug, PartialEq, Eq)]
pub enum Fault {
    /// An operation at a kind on two words breaks a rule (C17 6.5, 6.5.5, 6.5.7).
    Binary(Cause, BinaryOp, Kind, u64, u64),
    /// An operation at a kind on one word gives no number of the kind (6.5, paragraph 5).
    Unary(UnaryOp, Kind, u64),
    /// The word of an index is not below the size of its array (6.5.6, paragraph 8).
    Outside(u64, u64),
    /// One of two indexes is outside its dimension of an array of so many elements in rows of so many (the same).
    OutsideRows(u64, u64),
    /// The object was never set since its declaration was reached (6.2.4, paragraph 6, and 6.3.2.1, paragraph 2).
    NeverSet,
    /// The value is taken of a call whose function returned none (6.9.1, paragraph 12).
    NoValue,
    /// What no typed program does: a tree that typing does not make.
    IllFormed,
}
