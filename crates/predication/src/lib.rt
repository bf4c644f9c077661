//! From narrowed blocks to flow blocks: guards in place of branches.
#![tactic(auto)]

mod branching;
mod conversion;
mod emitting;
mod ending;
mod joining;
mod laws;
mod naming;
mod nodes;
mod outputs;
mod reading;
mod work;

pub use conversion::{convert, labels_fit};
pub use laws::{
    converted_blocks_are_regular, converted_blocks_are_tidy, converted_blocks_fit,
    converted_blocks_mean_the_same, fitting_blocks_are_taken, resolved_labels_are_addresses,
};
pub use work::Entry;
