//! The grammar of the C profile (C17 6.5 to 6.9) as a relation between trees and tokens, where the fault of
//! any other token list stands, and a model parser of which both are proved.
//!
//! The relation has one constructor for each production (`specs/Expressions.antt`, `specs/Statements.antt`,
//! `specs/Units.antt`); `specs/Places.antt` and `specs/Answers.antt` say which list is accepted and where a
//! fault stands. The two functions here carry the laws; they do nothing when they run.
#![tactic(auto)]

ghost use Rattle.c_grammar.specs.inside.Answers.{OneAnswer, OneTree};

/// A list of tokens has at most one tree, whatever depth is allowed.
pub fn one_tree()
    ensures law { OneTree }
{}

/// Every list of tokens has exactly one answer: its tree, or one of the two faults at one offset.
pub fn one_answer()
    ensures law { OneAnswer }
{}
