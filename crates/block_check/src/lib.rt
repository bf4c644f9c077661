//! The block checker.
//!
//! [`check`] takes a block exactly where it is good (docs/MACHINE.md, "Good blocks"), and else
//! hands it back unchanged with the fault of the lowest number at its least spot, taking no memory.
//! A [`CheckedBlock`] stands for what every machine may rely on: the block fits and is good, its
//! nodes have an order along their edges, and whatever its reads and loads are answered, no spot
//! gets two tokens, each declared write and store number gets one, and one exit is taken.
//! A [`CheckedImage`] is an image whose blocks were all checked, with a table of where they begin.
#![tactic(auto)]

mod checked_block;
mod checked_image;
mod chooser;
mod fault;
mod judge;
mod law;
mod marks;
mod nodes;
mod numbers;
mod once;
mod order;
mod pass;
mod refusal;
mod search;
mod targets;
mod verdict;

pub use checked_block::{CheckedBlock, check};
pub use checked_image::CheckedImage;
pub use fault::CheckFault;
pub use law::one_good;
pub use refusal::ImageRefusal;
