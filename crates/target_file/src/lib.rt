//! Target text as users write it (docs/MACHINE.md, "Target text"): with comments, blank lines and carriage returns.
//!
//! What is left of such a file, [`bare`], is the text that `target_asm` reads; [`assemble_file`] gives its image, or
//! its first fault with the line of the file itself. The laws say that a text without all these means what it means
//! there.
#![tactic(auto)]

mod assembling;
mod first_line;
pub mod law;
mod line_in_file;
mod stripping;

pub use assembling::assemble_file;
pub use line_in_file::in_file;
pub use stripping::bare;
