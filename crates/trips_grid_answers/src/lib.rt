//! What runs of images on the grid are answered, from the start and from a saved state, and what saving is. The crate
//! stands over images and the grid alone.
//!
//! specs/Report has the reports of runs, specs/Counted what the grid counts of one, specs/Runs what a run is
//! answered, and specs/Saved what saving and resuming are.
#![tactic(auto)]

mod gridded;
mod logging;
mod refusals;
mod report;
mod resuming;
mod saving;

pub use gridded::run_image;
pub use resuming::resumed;
pub use saving::saved_run;
