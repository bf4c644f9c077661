//! `run` on images and the tools, as tests.
#![tactic(auto)]

#[cfg(test)]
mod broken_tests;
#[cfg(test)]
mod comment_tests;
#[cfg(test)]
mod draw_tests;
#[cfg(test)]
mod four_tests;
#[cfg(test)]
mod grid_tests;
#[cfg(test)]
mod image_tests;
#[cfg(test)]
mod machine_tests;
#[cfg(test)]
mod placed_tests;
#[cfg(test)]
mod record_tests;
#[cfg(test)]
mod save_tests;
#[cfg(test)]
mod shown_trap_tests;
#[cfg(test)]
mod stats_tests;
#[cfg(test)]
mod tool_tests;
#[cfg(test)]
mod trap_tests;
#[cfg(test)]
mod verify_tests;
