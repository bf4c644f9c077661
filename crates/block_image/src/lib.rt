//! The image file: [`encode`] writes an image's one spelling and [`decode`] reads it, or names the
//! first fault and its place (docs/MACHINE.md, "The image").
//!
//! `specs/Spelling` says which bytes spell an image, and `specs/FirstFault` where bytes that spell
//! none go wrong first.
#![tactic(auto)]

mod body;
mod container;
mod fault;
mod field;
mod header;
mod law;
mod put;
mod word;

pub use container::decode;
pub use fault::ImageFault;
pub use put::encode;
