//! Target text (docs/MACHINE.md, "Target text") as definitions: the text of an image
//! (`TargetText image text`), the image that a text tells or its first fault, and the laws of both.
#![tactic(auto)]

mod fault;
pub mod law;
pub mod spelled;

pub use fault::AsmFault;
