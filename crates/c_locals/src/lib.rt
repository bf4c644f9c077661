//! Objects of blocks (docs/LANGUAGE.md): static objects and local arrays with values, as tokens that the grammar knows.
#![tactic(auto)]

mod brackets;
mod declarators;
mod elements;
mod grids;
mod names;
mod objects;
#[cfg(test)]
mod objects_tests;
mod parts;
mod put;
mod stages;
mod state;
mod statics;
mod values;
mod walk;

pub use crate::brackets::{depth_past, first_piece, is_mark, split};
pub use crate::objects::{has_no_objects, with_objects};
pub use crate::parts::braced;
pub use crate::walk::{is_word, parens_past};
