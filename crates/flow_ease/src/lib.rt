//! Passes over flow blocks, between completing and giving targets: each may make of a block whatever may stand for
//! it.
//!
//! What may stand for a block is in specs/inside/Eases; how a pass shows that it keeps the meaning, in
//! specs/inside/Tables; the laws in specs/inside/Laws.
#![tactic(auto)]

mod easing;
mod laws;

pub use easing::ease;
pub use laws::{blocks_stand_for_themselves, passes_follow_each_other, tables_give_meaning};
