//! Tests of the window in code on small images: what each event is answered at one frame, a frame of a small block
//! from its fill to its outputs, and windows that are driven to their end, beside the sequential machine. A refused
//! event leaves the window: [`refused_events_leave`] is that law.
#![tactic(auto)]

#[cfg(test)]
mod beside;
#[cfg(test)]
mod block_tests;
#[cfg(test)]
mod driven_tests;
#[cfg(test)]
mod ended_tests;
#[cfg(test)]
mod frame_making;
#[cfg(test)]
mod frame_tests;
#[cfg(test)]
mod making;
#[cfg(test)]
mod played_tests;
mod refused;
#[cfg(test)]
mod refused_tests;
#[cfg(test)]
mod rows;

pub use refused::refused_events_leave;
