//! Tables of events at a window over images of a few small blocks, beside the sequential machine.
#![tactic(auto)]

#[cfg(test)]
mod both;
#[cfg(test)]
mod drawing;
#[cfg(test)]
mod drawn_tests;
#[cfg(test)]
mod end_tests;
#[cfg(test)]
mod event_tests;
#[cfg(test)]
mod following;
#[cfg(test)]
mod frame_tests;
#[cfg(test)]
mod making;
#[cfg(test)]
mod memory_tests;
#[cfg(test)]
mod observe_tests;
#[cfg(test)]
mod opening_tests;
#[cfg(test)]
mod own_tests;
#[cfg(test)]
mod rows;
