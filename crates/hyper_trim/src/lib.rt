//! Hyper programs with fewer copies, and without the items that set what nobody reads.
//!
//! [`trim`] forwards copies and constants inside each block, and then leaves out the operations whose register no
//! later item and no following block reads. Which registers are alive where blocks begin is guessed and then judged;
//! what is left does the same, block by block (specs/inside/Laws).
#![tactic(auto)]

mod alive;
mod forwarding;
mod laws;
mod sets;
mod trimming;
mod walking;

pub use laws::{closed_tables_narrow, forwarding_is_same, forwarding_trims, trims_compose};
pub use trimming::trim;
