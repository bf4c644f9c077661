//! Which variables must be kept over each call of a flat program.
//!
//! [`assign`] lists for each call the variables that may be read behind it before they are set
//! again. A call that keeps only these changes no tame run.
#![tactic(auto)]

mod assigning;
mod grouping;
mod reading;
mod sets;
mod walking;

pub use assigning::{Assigned, assign};
