//! What the lowering to the flat form asks of a typed program, from the text on: each number is a word of its type, a
//! program is no larger than its text allows, and what typing gives is what lowering takes, so that lowered programs
//! keep C's meaning and fit the limits that the later passes rely on. All are public laws: nothing here runs.
//!
//! specs/inside/Words, specs/inside/Trees and specs/inside/TypedTrees have words and trees of them,
//! specs/inside/Assigners the operators of assignments; specs/inside/Nodes, specs/inside/SourceNodes,
//! specs/inside/Sizes, specs/inside/Limits and specs/inside/Most how large programs are; specs/inside/Jumps jumps
//! that stand where they may; specs/inside/Laws what the flat program gives the later passes.
#![tactic(auto)]

mod counts;
mod fits;
mod law;
mod lengths;
mod lexing;
mod parsing;
mod typing;

pub use counts::globals_are_few;
pub use fits::{lowered_programs_keep_meaning, most_of_is_most, typed_programs_fit};
pub use law::{flat_programs_fit, flat_programs_fit_at_any_length, statements_are_few};
pub use lengths::{
    blocks_are_few, passes_are_short, programs_are_small, programs_have_room, units_are_small,
};
pub use lexing::tokens_have_words;
pub use parsing::units_have_words;
pub use typing::programs_have_words;
