//! The keywords of declarations in the order of the grammar (docs/LANGUAGE.md), as tokens, so that the grammar and
//! all behind it know one spelling of each type, no storage classes, no qualifiers and no pointers.
#![tactic(auto)]

mod guard;
mod keys;
mod level;
mod named;
mod names;
mod ordered;
mod part;
mod pass;
mod place;
mod pointers;
mod run;
mod stand;
#[cfg(test)]
mod words_tests;

pub use crate::keys::{is_key, is_type_word, one};
pub use crate::named::{Named, spelling, type_of};
pub use crate::names::Names;
pub use crate::ordered::put_keys;
pub use crate::pass::{has_no_words, worded};
pub use crate::run::cut;
