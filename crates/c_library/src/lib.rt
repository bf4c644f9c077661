//! The library of the C profile (docs/LANGUAGE.md): string literals, library functions and formats as
//! tokens, so that the grammar and all behind it know nothing of them.
#![tactic(auto)]

mod calls;
mod conversion;
mod copy;
mod definition;
mod fault;
mod format;
mod header;
mod insert;
mod joins;
mod library;
#[cfg(test)]
mod library_tests;
mod literal;
mod mention;
mod output;
mod place;
mod prepare;
mod reading;
mod spelled;
mod strings;
mod table;
mod terms;
mod walk;

pub use crate::copy::{form_copied, token_copied};
pub use crate::fault::LibraryFault;
pub use crate::header::is_served;
pub use crate::output::Output;
pub use crate::prepare::{is_prepared, prepared};
