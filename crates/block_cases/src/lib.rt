//! Good blocks: the cases of a block, and what every machine may rely on in a block without a fault.
//!
//! docs/MACHINE.md, "Good blocks", states the faults. A case gives one bit to each chooser that fires.
#![tactic(auto)]

mod law;
mod marks_law;
mod token;

pub use law::{
    any_bits_agree_with_a_case, entry_tables_are_unique, good_blocks_keep_one_token,
    tables_agree_with_a_case, tables_are_unique,
};
pub use marks_law::{
    clean_blocks_are_unmarked, markings_are_unique, traps_change_nothing, unmarked_blocks_are_plain,
};
pub use token::CaseToken;
