//! What nearly every crate stands on: the unit error [`Memory`]; lists and boxes that contracts see as what they
//! hold, so that a tree made of them is plain data; and rows of flags, and of items of which each may be there or
//! not.
//!
//! A row keeps a bit for each number in words of 64, so that a few writes clear a row of any length, and contracts
//! see it as a list. All calls take any number: what is past the last is not there, and a write to it changes
//! nothing.
#![tactic(auto)]

mod boxed;
mod flags;
mod items;
mod memory;
mod queue;
mod row;
#[cfg(test)]
mod tests;

pub use boxed::Boxed;
pub use flags::Flags;
pub use items::Items;
pub use memory::Memory;
pub use queue::Queue;
pub use row::Row;
