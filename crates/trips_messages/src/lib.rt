//! Refusals of texts of C for people: the place, in a sentence what is wrong, and the line with a mark under a byte.
//!
//! specs/Messages says what is told of a fault at a byte of a text; specs/Choices which sentence, by the word at the
//! place, and specs/Hints by the tokens around it; specs/Texts has the sentences. specs/Mended is a text without a
//! fault, in which the next one is sought. docs/MESSAGES.md has a section for each fault.
#![tactic(auto)]

mod choices;
mod class;
mod fault;
mod hints;
mod marked;
mod mending;
mod names;
mod nearest;
mod places;
mod saying;
mod sight;
mod spans;
mod telling;
#[cfg(test)]
mod telling_tests;
mod wanted;
mod words;

pub use fault::Fault;
pub use marked::put_marked;
pub use mending::mended;
pub use places::{column, first_line, last_line, parted};
pub use telling::{accepted, message, message_without_place};
pub use words::word_length;
