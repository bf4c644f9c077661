//! Laws of target text, over the definitions of `target_asm_spec`: a text that is read as an image is the text of
//! that image, so that whoever reads an image need not print it again; and a text is an image's or has a first fault,
//! one and not both, which is the one that reading meets.
//!
//! The three laws stand in src/law.rt; the crate has no definitions of its own.
#![tactic(auto)]

mod law;

pub use law::{first_faults_are_met, first_faults_are_unique, texts_are_exact};
