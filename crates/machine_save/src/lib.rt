//! The save file: [`save`] writes an image and the machine's state between two blocks, and [`open_save`] reads both,
//! or names the first fault and its place (docs/SAVES.md).
//!
//! specs/Spelling says which bytes save an image and a state, and specs/FirstFault where bytes that save none go
//! wrong first.
#![tactic(auto)]

mod fault;
mod law;
mod opening;
mod put;
mod reading;

pub use fault::SaveFault;
pub use law::{first_faults_of_saves_are_unique, saves_are_exact};
pub use opening::open_save;
pub use put::{image_bytes, save, save_with};
