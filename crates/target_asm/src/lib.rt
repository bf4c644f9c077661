//! Images as target text (docs/MACHINE.md, "Target text"): [`print`] writes the one text of an image, and
//! [`assemble`] reads it back, or gives the first fault of a text that is no image's.
//!
//! What a text is and how it is read stands in crates/target_asm_spec/specs, that reading is exact in
//! `target_asm_laws`. specs/inside/Taking.antt compares what a call returned with what reading gives.
#![tactic(auto)]

mod assembling;
mod block;
mod body;
mod branches;
mod fields;
mod instruction;
mod judging;
mod line_fields;
mod places;
mod printing;
mod registers;
mod rows;
mod slots;
mod tables;
mod whole;

pub use assembling::assemble;
pub use instruction::inst_line;
pub use judging::judged;
pub use line_fields::{after, byte, field, number};
pub use printing::print;
pub use registers::{block_line, judged_read, read_line, write_line};
pub use target_asm_spec::AsmFault;
