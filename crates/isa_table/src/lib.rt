//! The table of the machine's operations: the mnemonic, the opcode and the extended opcode of
//! each, and the look-ups by mnemonic and by numbers; and how numbers, names with an index and
//! spots are written.
//!
//! The instruction words of an image and the lines of a target text both read this table.
#![tactic(auto)]

mod digits;
mod lists;
mod names;
mod numbers;
mod spots;

pub use digits::{put_number, put_signed};
pub use names::{mnemonic_of, with_mnemonic};
pub use numbers::{Code, code_of, with_numbers};
pub use spots::{put_indexed, put_spot};
